// The work of the calls once nothing is refused.
ghost use Rattle.std.specs.Prelude.{◌≡◌, false, [], ◌<◌, length, take};
ghost use Rattle.block.specs.Blocks.{wide, filled};
ghost use Rattle.cipher.specs.Cipher.{TablesFit, IsSuite, size_of, cipher_of};
ghost use Rattle.mode.specs.Walk.{turned, message_of};
ghost use Rattle.block_state.specs.Two.{two_of, Holds, one_more_of};
ghost use Rattle.session.specs.Value.{value_of, first_mark, begun, start_number, starting, data_number, data_part, text_number};
ghost use Rattle.session.specs.Value.{text_part, end_number, ending};
ghost use Rattle.session.specs.Structs.{as_value, gives};

use crate::{Session, Step};
use block::Block;
use block_state::State;
use block_state::marks::{MARK_FIRST_DATA, MARK_FIRST_TEXT, MARK_SHORT_DATA};
use block_step::one_block::absorb_short;
use cipher::{AesTables, Engine};
use session_blocks::Absorbed;

// The bytes that the suite does not use are zero.
fn clean(suite: u8, y: Block) -> Block
    ensures { wide result ≡ filled (take (size_of suite) (wide y)) }
{
    if cipher::size_of(suite) == 16 {
        return y;
    }
    Block { a: y.a, b: 0 }
}

// A session of these states, held bytes and totals.
fn packed(suite: u8, absorbed: Absorbed, ad_total: usize, text_total: usize) -> Session
    ensures { as_value result ≡ value_of suite (two_of suite absorbed.s) absorbed.held ad_total text_total }
{
    let state = absorbed.s;
    let y = clean(suite, state.y);
    let held = absorbed.held;
    Session {
        suite,
        y,
        z: state.z,
        held,
        ad_total,
        text_total,
    }
}

// The session after a start with this key and nonce.
pub(crate) fn started(engine: &Engine, key: &[u8], nonce: &[u8]) -> Step
    requires { start_number engine.now.suite (length key.now) (length nonce.now) ≡ 0 }
    ensures { gives result [] [] ≡ starting engine.now.suite key.now nonce.now }
{
    let state = block_state::start(engine, key, nonce);
    let next = packed(
        engine.suite,
        Absorbed {
            s: state,
            held: [0; 16],
        },
        0,
        0,
    );
    Step {
        next,
        outcome: Ok(0),
    }
}

// The mark of the next whole block: `mark` if none was absorbed yet.
fn first_mark(suite: u8, mark: u8, total: usize) -> u8
    ensures { result ≡ first_mark (cipher_of suite) mark total }
{
    let n = cipher::size_of(suite);
    if total < n { mark } else { 0 }
}

// Absorbs a part of the associated data.
pub(crate) fn take_in(session: Session, part: &[u8]) -> Step
    requires { data_number session.suite session.ad_total session.text_total (length part.now) ≡ 0 }
    ensures { gives result [] [] ≡ data_part (as_value session) part.now }
{
    let suite = session.suite;
    let n = cipher::size_of(suite);
    let mark = first_mark(suite, MARK_FIRST_DATA, session.ad_total);
    let held_len = session.ad_total % n;
    let two = State {
        y: session.y,
        z: session.z,
        calls: 0,
    };
    let absorbed = session_blocks::absorb_part(suite, two, mark, session.held, held_len, part);
    let next = packed(
        suite,
        absorbed,
        session.ad_total + part.len(),
        session.text_total,
    );
    Step {
        next,
        outcome: Ok(0),
    }
}

// Absorbs the associated data's last bytes as a short block, with the tables that the cipher needs.
fn absorb_last(suite: u8, state: State, mark: u8, bytes: &[u8]) -> State
    requires { IsSuite suite × (length bytes.now < size_of suite) }
    ensures { Holds suite result (turned (cipher_of suite) mark (two_of suite state)
        (message_of (cipher_of suite) false mark (two_of suite state) bytes.now)) (one_more_of state.calls) }
{
    if cipher::needs_tables(suite) {
        let tables = cipher::tables(suite);
        let engine = Engine {
            suite,
            tables: &tables,
        };
        return absorb_short(&engine, false, state, mark, bytes);
    }
    let engine = Engine { suite, tables: &[] };
    absorb_short(&engine, false, state, mark, bytes)
}

// The states when the message begins or continues: if it begins, the associated data's last bytes are absorbed first.
fn begin(session: Session) -> State
    requires { IsSuite session.suite }
    ensures { two_of session.suite result ≡ begun (cipher_of session.suite) (as_value session) }
{
    let suite = session.suite;
    let two = State {
        y: session.y,
        z: session.z,
        calls: 0,
    };
    if session.text_total != 0 {
        return two;
    }
    let n = cipher::size_of(suite);
    let held_len = session.ad_total % n;
    if held_len == 0 {
        return two;
    }
    let mark = first_mark(suite, MARK_FIRST_DATA, session.ad_total);
    let held = session.held;
    absorb_last(suite, two, mark ^ MARK_SHORT_DATA, &held[0..held_len])
}

// The same as `begin`, without a call if the message has begun.
fn going(session: Session) -> State
    requires { IsSuite session.suite }
    ensures { two_of session.suite result ≡ begun (cipher_of session.suite) (as_value session) }
{
    if session.text_total != 0 {
        return State {
            y: session.y,
            z: session.z,
            calls: 0,
        };
    }
    begin(session)
}

// Seals a part of the message, at least one byte, and outputs the ciphertext of the blocks that it completes.
pub(crate) fn seal_in(session: Session, part: &[u8], out: &mut [u8]) -> Step
    requires { (text_number session.suite session.ad_total session.text_total (length part.now) (length out.old) ≡ 0)
        × (0 < length part.now) }
    ensures { gives result out.new [] ≡ text_part (as_value session) part.now out.old }
{
    let suite = session.suite;
    let two = going(session);
    let n = cipher::size_of(suite);
    let mark = first_mark(suite, MARK_FIRST_TEXT, session.text_total);
    let held_len = session.text_total % n;
    let sealed = session_blocks::crypt_part(suite, two, mark, session.held, held_len, part, out);
    let held = sealed.held;
    let next = packed(
        suite,
        Absorbed { s: sealed.s, held },
        session.ad_total,
        session.text_total + part.len(),
    );
    Step {
        next,
        outcome: Ok(sealed.count),
    }
}

// The end's work: the rest of the ciphertext, and the tag.
pub(crate) fn close(tables: &[AesTables], session: Session, out: &mut [u8], tag: &mut [u8]) -> Step
    requires { TablesFit session.suite tables.now × (end_number session.suite session.ad_total session.text_total (length out.old)
        (length tag.old) ≡ 0) }
    ensures { gives result out.new tag.new ≡ ending (as_value session) out.old tag.old }
{
    let engine = Engine {
        suite: session.suite,
        tables,
    };
    let two = begin(session);
    let n = engine.size();
    let mark = first_mark(session.suite, MARK_FIRST_TEXT, session.text_total);
    let held_len = session.text_total % n;
    let state = session_blocks::last_in(&engine, two, mark, session.held, held_len, out);
    let last = block_state::tag::tag_of(&engine, state);
    let computed = last.tag;
    byte_runs::put(computed, tag);
    Step {
        next: Session::default(),
        outcome: Ok(held_len),
    }
}
