// One block of associated data or text, full or short, by one cipher call; a full one is read and written by whole words. The
// output overwrites the block of text.
ghost use Rattle.std.specs.Prelude.{◌≡◌, ◌<◌, length};
ghost use Rattle.cipher.specs.Cipher.{size_of, cipher_of};
ghost use Rattle.mode.specs.Walk.{turned, hidden, message_of};
ghost use Rattle.block_state.specs.Two.{two_of, Holds, one_more_of};

use block_state::State;
use cipher::Engine;

// Absorbs a full block under its mark and writes nothing: associated data as it is or, in opening, the message of ciphertext.
pub fn absorb_full<const OPENING: bool>(
    engine: &Engine,
    state: State,
    mark: u8,
    block: &[u8],
) -> State
    requires { length block.now ≡ size_of engine.now.suite }
    ensures { Holds engine.now.suite result (turned (cipher_of engine.now.suite) mark (two_of engine.now.suite state)
        (message_of (cipher_of engine.now.suite) OPENING mark (two_of engine.now.suite state) block.now)) (one_more_of state.calls) }
{
    let enciphered = block_state::turn(engine, state, mark, block.len());
    let given = block::whole(block);
    if OPENING {
        let mask = crate::shuffle::shuffled(engine.suite, enciphered.y, block.len());
        let message = block::xor(given, mask);
        return block_state::mix(enciphered, message);
    }
    block_state::mix(enciphered, given)
}

// Seals or opens a full block in place: overwrites the text with the output and absorbs the message block.
pub fn crypt_full<const OPENING: bool>(
    engine: &Engine,
    state: State,
    mark: u8,
    block: &mut [u8],
) -> State
    requires { length block.old ≡ size_of engine.now.suite }
    ensures text { block.new ≡ hidden (cipher_of engine.now.suite) mark (two_of engine.now.suite state) block.old }
    ensures state { Holds engine.now.suite result (turned (cipher_of engine.now.suite) mark (two_of engine.now.suite state)
        (message_of (cipher_of engine.now.suite) OPENING mark (two_of engine.now.suite state) block.old)) (one_more_of state.calls) }
{
    let enciphered = block_state::turn(engine, state, mark, block.len());
    let given = block::whole(block);
    let mask = crate::shuffle::shuffled(engine.suite, enciphered.y, block.len());
    let output = block::xor(given, mask);
    block::put_whole(output, block);
    if OPENING {
        return block_state::mix(enciphered, output);
    }
    block_state::mix(enciphered, given)
}

// Absorbs a short block of associated data, or the message block of a short block of ciphertext, without writing it anywhere.
pub fn absorb_short(engine: &Engine, opening: bool, state: State, mark: u8, block: &[u8]) -> State
    requires { length block.now < size_of engine.now.suite }
    ensures { Holds engine.now.suite result (turned (cipher_of engine.now.suite) mark (two_of engine.now.suite state)
        (message_of (cipher_of engine.now.suite) opening mark (two_of engine.now.suite state) block.now)) (one_more_of state.calls) }
{
    let n = engine.size();
    let enciphered = block_state::turn(engine, state, mark, n);
    let given = byte_runs::filled(block);
    if opening {
        let mask = crate::shuffle::shuffled(engine.suite, enciphered.y, n);
        let message = block::xor(given, mask);
        return block_state::mix(enciphered, crate::pad::padded(message, block.len()));
    }
    block_state::mix(enciphered, crate::pad::padded(given, block.len()))
}

// Seals or opens a short block in place: absorbs the message block and overwrites the text with the output.
pub fn crypt_short(
    engine: &Engine,
    opening: bool,
    state: State,
    mark: u8,
    block: &mut [u8],
) -> State
    requires { length block.old < size_of engine.now.suite }
    ensures text { block.new ≡ hidden (cipher_of engine.now.suite) mark (two_of engine.now.suite state) block.old }
    ensures state { Holds engine.now.suite result (turned (cipher_of engine.now.suite) mark (two_of engine.now.suite state)
        (message_of (cipher_of engine.now.suite) opening mark (two_of engine.now.suite state) block.old)) (one_more_of state.calls) }
{
    let len = block.len();
    let n = engine.size();
    let enciphered = block_state::turn(engine, state, mark, n);
    let given = byte_runs::filled(block);
    let mask = crate::shuffle::shuffled(engine.suite, enciphered.y, n);
    let output = block::xor(given, mask);
    byte_runs::put(output, block);
    if opening {
        return block_state::mix(enciphered, crate::pad::padded(output, len));
    }
    block_state::mix(enciphered, crate::pad::padded(given, len))
}
