// A session's buffered bytes followed by a part: whole blocks are processed (crate block_walk), and the rest is buffered.
#![tactic(auto)]

ghost use Rattle.std.specs.Prelude.{◌≡◌, false, ◌++◌, ℕ, ◌+◌, ◌-◌, ◌≤◌, ◌<◌, length, take};
ghost use Rattle.block.specs.Blocks.{filled};
ghost use Rattle.cipher.specs.Cipher.{IsSuite, size_of, cipher_of};
ghost use Rattle.mode.specs.Blocks.{blocks};
ghost use Rattle.mode.specs.Walk.{whole, rest, walked, covered};
ghost use Rattle.block_state.specs.Two.{two_of};
ghost use Rattle.block_walk.specs.Progress.{wholes, Passed};
ghost use Rattle.block_walk.specs.Counted.{Counted};
ghost use Rattle.session_blocks.specs.Written.{written};

use block_state::State;
use block_state::marks::MARK_SHORT_TEXT;
use block_step::one_block::crypt_short;
use block_walk::Progress;
use cipher::Engine;

// The two states, and the buffered bytes.
#[derive(Clone, Copy)]
pub struct Absorbed {
    pub s: State,
    pub held: [u8; 16],
}

// The first `count` bytes of held, then a part, and zeros.
fn joined(held: [u8; 16], count: usize, part: &[u8]) -> [u8; 16]
    requires { count + length part.now ≤ 16 }
    ensures { result ≡ filled (take count held ++ part.now) }
{
    let mut sixteen = [0; 16];
    gather(held, count, part, &mut sixteen[0..count + part.len()]);
    sixteen
}

// Absorbs the whole blocks of ad, none of them the first, and buffers the rest.
fn absorb_blocks(engine: &Engine, start: State, ad: &[u8]) -> Absorbed
    ensures states { two_of engine.now.suite result.s ≡ walked (cipher_of engine.now.suite) false 0 0x10 (two_of engine.now.suite start)
        (blocks (size_of engine.now.suite) (whole (size_of engine.now.suite) ad.now)) }
    ensures held { result.held ≡ filled (rest (size_of engine.now.suite) ad.now) }
    ensures calls { Counted engine.now.suite (length (wholes (size_of engine.now.suite) ad.now)) start result.s }
{
    let whole = block_walk::absorb(engine, false, start, 0, ad);
    let held = byte_runs::filled_bytes(&ad[whole.at..ad.len()]);
    Absorbed { s: whole.s, held }
}

// Absorbs the whole blocks of `count` buffered bytes followed by ad, which completes one, the first under the mark, and buffers the rest.
fn absorb_past(
    engine: &Engine,
    state: State,
    mark: u8,
    held: [u8; 16],
    count: usize,
    ad: &[u8],
) -> Absorbed
    requires { (count < size_of engine.now.suite) × (size_of engine.now.suite ≤ count + length ad.now) }
    ensures states { two_of engine.now.suite result.s ≡ walked (cipher_of engine.now.suite) false mark 0x10 (two_of engine.now.suite state)
        (blocks (size_of engine.now.suite) (whole (size_of engine.now.suite) (take count held ++ ad.now))) }
    ensures held { result.held ≡ filled (rest (size_of engine.now.suite) (take count held ++ ad.now)) }
    ensures calls { Counted engine.now.suite (length (wholes (size_of engine.now.suite) (take count held ++ ad.now))) state result.s }
{
    let n = engine.size();
    let need = n - count;
    let first = joined(held, count, &ad[0..need]);
    let whole = block_walk::absorb(engine, false, state, mark, &first[0..n]);
    absorb_blocks(engine, whole.s, &ad[need..ad.len()])
}

// Absorbs the whole blocks of `count` buffered bytes followed by ad, the first under the mark, and buffers the rest. Tables are
// constructed only if a block is completed. With and without tables are written out, here and in `session`: a closure that takes the
// engine would need its own contract at each of these calls, which is longer than the second call.
pub fn absorb_part(
    suite: u8,
    state: State,
    mark: u8,
    held: [u8; 16],
    count: usize,
    ad: &[u8],
) -> Absorbed
    requires { IsSuite suite × (count < size_of suite) }
    ensures states { two_of suite result.s ≡ walked (cipher_of suite) false mark 0x10 (two_of suite state)
        (blocks (size_of suite) (whole (size_of suite) (take count held ++ ad.now))) }
    ensures held { result.held ≡ filled (rest (size_of suite) (take count held ++ ad.now)) }
    ensures calls { Counted suite (length (wholes (size_of suite) (take count held ++ ad.now))) state result.s }
{
    let n = cipher::size_of(suite);
    if ad.len() < n - count {
        let held = joined(held, count, ad);
        return Absorbed { s: state, held };
    }
    if cipher::needs_tables(suite) {
        let tables = cipher::tables(suite);
        let engine = Engine {
            suite,
            tables: &tables,
        };
        return absorb_past(&engine, state, mark, held, count, ad);
    }
    let engine = Engine { suite, tables: &[] };
    absorb_past(&engine, state, mark, held, count, ad)
}

// The two states, the buffered bytes, and how many bytes were output.
#[derive(Clone, Copy)]
pub struct Sealed {
    pub s: State,
    pub held: [u8; 16],
    pub count: usize,
}

// The first `count` bytes of held, then a part, into an output of their length.
fn gather(held: [u8; 16], count: usize, part: &[u8], out: &mut [u8])
    requires { (count ≤ 16) × (length out.old ≡ count + length part.now) }
    ensures { out.new ≡ take count held ++ part.now }
{
    let end = out.len();
    byte_runs::copy(&held[0..count], &mut out[0..count]);
    byte_runs::copy(part, &mut out[count..end]);
}

// Seals the whole blocks of text in place, the first under the mark, with the tables that the cipher needs.
fn crypt_blocks(suite: u8, state: State, mark: u8, text: &mut [u8]) -> Progress
    requires { IsSuite suite }
    ensures text { (short : ℕ) → text.new ≡ covered (cipher_of suite) false mark short (two_of suite state)
        (wholes (size_of suite) text.old) ++ rest (size_of suite) text.old }
    ensures state { Passed suite false mark state text.old result }
{
    if cipher::needs_tables(suite) {
        let tables = cipher::tables(suite);
        let engine = Engine {
            suite,
            tables: &tables,
        };
        return block_walk::crypt(&engine, false, state, mark, text);
    }
    let engine = Engine { suite, tables: &[] };
    block_walk::crypt(&engine, false, state, mark, text)
}

// Seals the whole blocks of `count` buffered bytes followed by part, the first under the mark, and outputs their ciphertext; the
// rest is buffered. Tables are constructed only if a block is completed.
pub fn crypt_part(
    suite: u8,
    start: State,
    mark: u8,
    held: [u8; 16],
    count: usize,
    part: &[u8],
    out: &mut [u8],
) -> Sealed
    requires { IsSuite suite × (count < size_of suite) × (length part.now + (size_of suite - 1) ≤ length out.old) }
    ensures text { out.new ≡ written (covered (cipher_of suite) false mark 0x40 (two_of suite start)
        (blocks (size_of suite) (whole (size_of suite) (take count held ++ part.now)))) out.old }
    ensures count { result.count ≡ length (covered (cipher_of suite) false mark 0x40 (two_of suite start)
        (blocks (size_of suite) (whole (size_of suite) (take count held ++ part.now)))) }
    ensures states { two_of suite result.s ≡ walked (cipher_of suite) false mark 0x40 (two_of suite start)
        (blocks (size_of suite) (whole (size_of suite) (take count held ++ part.now))) }
    ensures held { result.held ≡ filled (rest (size_of suite) (take count held ++ part.now)) }
    ensures calls { Counted suite (length (wholes (size_of suite) (take count held ++ part.now))) start result.s }
{
    let n = cipher::size_of(suite);
    let all = count + part.len();
    if all < n {
        let held = joined(held, count, part);
        return Sealed {
            s: start,
            held,
            count: 0,
        };
    }
    let whole = all - all % n;
    let taken = whole - count;
    gather(held, count, &part[0..taken], &mut out[0..whole]);
    let done = crypt_blocks(suite, start, mark, &mut out[0..whole]);
    let held = byte_runs::filled_bytes(&part[taken..part.len()]);
    Sealed {
        s: done.s,
        held,
        count: whole,
    }
}

// Seals the `count` buffered bytes of message as a short block, if there are any, and outputs their ciphertext.
pub fn last_in(
    engine: &Engine,
    state: State,
    mark: u8,
    held: [u8; 16],
    count: usize,
    out: &mut [u8],
) -> State
    requires { (count < size_of engine.now.suite) × (size_of engine.now.suite ≤ length out.old) }
    ensures text { out.new ≡ written (covered (cipher_of engine.now.suite) false mark 0x40 (two_of engine.now.suite state)
        (blocks (size_of engine.now.suite) (take count held))) out.old }
    ensures count { count ≡ length (covered (cipher_of engine.now.suite) false mark 0x40 (two_of engine.now.suite state)
        (blocks (size_of engine.now.suite) (take count held))) }
    ensures state { two_of engine.now.suite result ≡ walked (cipher_of engine.now.suite) false mark 0x40 (two_of engine.now.suite state)
        (blocks (size_of engine.now.suite) (take count held)) }
    ensures calls { Counted engine.now.suite (length (blocks (size_of engine.now.suite) (take count held))) state result }
{
    if count == 0 {
        return state;
    }
    byte_runs::copy(&held[0..count], &mut out[0..count]);
    crypt_short(
        engine,
        false,
        state,
        mark ^ MARK_SHORT_TEXT,
        &mut out[0..count],
    )
}
