// The loops over the whole blocks of a text, shared by the one-call sealer, the opener and the sessions. Each loop is
// compiled once for each direction and is then the only caller of its step, so that the compiler inlines the step. The index stays: where it
// ends is part of what a loop returns (`at`), and beside `chunks_exact` that would be counted again, by a remainder.
#![tactic(auto)]

ghost use Rattle.std.specs.Prelude.{◌≡◌, ◌++◌, ℕ};
ghost use Rattle.cipher.specs.Cipher.{size_of, cipher_of};
ghost use Rattle.mode.specs.Walk.{rest, covered};
ghost use Rattle.block_state.specs.Two.{two_of};
ghost use Rattle.block_walk.specs.Progress.{wholes, Passed};

use block_state::State;
use block_step::one_block::{absorb_full, crypt_full};
use cipher::Engine;

// The result after the whole blocks: the state, the mark that is still due for the next block, and how many bytes were processed.
#[derive(Clone, Copy)]
pub struct Progress {
    pub s: State,
    pub mark: u8,
    pub at: usize,
}

// Whole blocks that are read alone: associated data, or ciphertext whose message is absorbed.
fn absorb_blocks<const OPENING: bool>(
    engine: &Engine,
    start: State,
    first: u8,
    bytes: &[u8],
) -> Progress
    ensures { Passed engine.now.suite OPENING first start bytes.now result }
{
    let n = engine.size();
    if bytes.len() < n {
        return Progress {
            s: start,
            mark: first,
            at: 0,
        };
    }
    let last = bytes.len() - n;
    let mut state = start;
    let mut mark = first;
    let mut i: usize = 0;
    while i <= last {
        let end = i + n;
        state = absorb_full::<OPENING>(engine, state, mark, &bytes[i..end]);
        mark = 0;
        i = end;
    }
    Progress {
        s: state,
        mark,
        at: i,
    }
}

// Absorbs the whole blocks, the first under the mark, and writes nothing: associated data as it is, of ciphertext the message.
pub fn absorb(engine: &Engine, opening: bool, state: State, mark: u8, bytes: &[u8]) -> Progress
    ensures { Passed engine.now.suite opening mark state bytes.now result }
{
    if opening {
        return absorb_blocks::<true>(engine, state, mark, bytes);
    }
    absorb_blocks::<false>(engine, state, mark, bytes)
}

// Whole blocks of a message, sealed, or of ciphertext, opened.
fn crypt_blocks<const OPENING: bool>(
    engine: &Engine,
    start: State,
    first: u8,
    text: &mut [u8],
) -> Progress
    ensures text { (short : ℕ) → text.new ≡ covered (cipher_of engine.now.suite) OPENING first short (two_of engine.now.suite start)
        (wholes (size_of engine.now.suite) text.old) ++ rest (size_of engine.now.suite) text.old }
    ensures state { Passed engine.now.suite OPENING first start text.old result }
{
    let n = engine.size();
    if text.len() < n {
        return Progress {
            s: start,
            mark: first,
            at: 0,
        };
    }
    let last = text.len() - n;
    let mut state = start;
    let mut mark = first;
    let mut i: usize = 0;
    while i <= last {
        let end = i + n;
        state = crypt_full::<OPENING>(engine, state, mark, &mut text[i..end]);
        mark = 0;
        i = end;
    }
    Progress {
        s: state,
        mark,
        at: i,
    }
}

// Seals or opens the whole blocks of a text in place, the first under the mark; the bytes after them are unchanged.
pub fn crypt(engine: &Engine, opening: bool, state: State, mark: u8, text: &mut [u8]) -> Progress
    ensures text { (short : ℕ) → text.new ≡ covered (cipher_of engine.now.suite) opening mark short (two_of engine.now.suite state)
        (wholes (size_of engine.now.suite) text.old) ++ rest (size_of engine.now.suite) text.old }
    ensures state { Passed engine.now.suite opening mark state text.old result }
{
    if opening {
        return crypt_blocks::<true>(engine, state, mark, text);
    }
    crypt_blocks::<false>(engine, state, mark, text)
}
