// The functions that process all blocks of associated data or of a text: the whole blocks by `block_walk`, then the short one, if there is one.
#![tactic(auto)]

ghost use Rattle.std.specs.Prelude.{◌≡◌, ◌<◌, length};
ghost use Rattle.cipher.specs.Cipher.{size_of, cipher_of};
ghost use Rattle.mode.specs.Blocks.{blocks};
ghost use Rattle.mode.specs.Walk.{walked, covered};
ghost use Rattle.block_state.specs.Two.{two_of};
ghost use Rattle.block_walk.specs.Counted.{Counted};

use block_state::State;
use block_state::marks::{MARK_FIRST_TEXT, MARK_SHORT_TEXT};
use block_step::one_block::{absorb_short, crypt_short};
use block_walk::Progress;
use cipher::Engine;

// Absorbs all blocks of the bytes, one cipher call each, the first under the mark `first` and a short one also under the mark `short`; nothing is written.
pub fn absorb_all(
    engine: &Engine,
    opening: bool,
    start: State,
    first: u8,
    short: u8,
    bytes: &[u8],
) -> State
    ensures state { two_of engine.now.suite result ≡ walked (cipher_of engine.now.suite) opening first short (two_of engine.now.suite start) (blocks (size_of engine.now.suite) bytes.now) }
    ensures calls { Counted engine.now.suite (length (blocks (size_of engine.now.suite) bytes.now)) start result }
{
    let Progress {
        s: absorbed,
        mark,
        at,
    } = block_walk::absorb(engine, opening, start, first, bytes);
    if at < bytes.len() {
        return absorb_short(
            engine,
            opening,
            absorbed,
            mark ^ short,
            &bytes[at..bytes.len()],
        );
    }
    absorbed
}

// Seals or opens all blocks of a nonempty text in place, one cipher call each.
pub fn crypt_all(engine: &Engine, opening: bool, start: State, text: &mut [u8]) -> State
    requires { 0 < length text.old }
    ensures text { text.new ≡ covered (cipher_of engine.now.suite) opening 0x20 0x40 (two_of engine.now.suite start) (blocks (size_of engine.now.suite) text.old) }
    ensures state { (two_of engine.now.suite result ≡ walked (cipher_of engine.now.suite) opening 0x20 0x40 (two_of engine.now.suite start) (blocks (size_of engine.now.suite) text.old))
        × Counted engine.now.suite (length (blocks (size_of engine.now.suite) text.old)) start result }
{
    let end = text.len();
    if end < engine.size() {
        return crypt_short(
            engine,
            opening,
            start,
            MARK_FIRST_TEXT ^ MARK_SHORT_TEXT,
            text,
        );
    }
    let Progress { s: state, mark, at } = block_walk::crypt(
        engine,
        opening,
        start,
        MARK_FIRST_TEXT,
        text,
    );
    if at < end {
        return crypt_short(
            engine,
            opening,
            state,
            mark ^ MARK_SHORT_TEXT,
            &mut text[at..end],
        );
    }
    state
}
