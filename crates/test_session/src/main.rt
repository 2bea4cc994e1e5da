// Runs the calls of the input on one session, which is over at first, and writes a line for each.
//
// Op 0 starts (lengths of key and nonce; both follow), 1 brings associated data (its length; it follows), 2 a part of the
// message (its length and the output's; it follows), 3 ends (0, lengths of output and tag). Op 4 is no call: the session
// gets this suite and the second and third number as its totals, and no line is written. A line is the
// number, the count and, if the call has them, output and tag. The borrowed buffers hold 0xa5 before the call.
#![tactic(auto)]

use cipher::LIMIT;
use program_text::calls;
use program_text::calls::{Call, CallError};
use program_text::print::{Page, Shown};
use program_text::read::{front_mut, part};
use session::Session;
use std::io;
use std::io::{Read, Write};

// The most bytes that a call can have here: of associated data and of message, one more than the limit; of a part's output, a
// few blocks more; and of key, nonce, tag and the last output.
const TEXT_ROOM: usize = LIMIT + 1;

const OUT_ROOM: usize = LIMIT + 64;

const KEY_ROOM: usize = 40;

fn start<R: Read>(
    input: &mut R,
    state: &mut Session,
    call: Call,
    line: &mut Page,
) -> Result<(), CallError> {
    let [key_len, nonce_len, ..] = call.numbers;
    let mut key_buf = [0u8; KEY_ROOM];
    let mut nonce_buf = [0u8; KEY_ROOM];
    let key = part(input, &mut key_buf, key_len)?;
    let nonce = part(input, &mut nonce_buf, nonce_len)?;
    let step = Session::start(call.suite, key, nonce);
    *state = step.next;
    writeln!(line, "{} {}", step.number(), step.count())?;
    Ok(())
}

fn associated<R: Read>(
    input: &mut R,
    state: &mut Session,
    call: Call,
    line: &mut Page,
) -> Result<(), CallError> {
    let [ad_len, ..] = call.numbers;
    let mut ad_buf = [0u8; TEXT_ROOM];
    let ad = part(input, &mut ad_buf, ad_len)?;
    let step = state.associated(ad);
    *state = step.next;
    writeln!(line, "{} {}", step.number(), step.count())?;
    Ok(())
}

fn message<R: Read>(
    input: &mut R,
    state: &mut Session,
    call: Call,
    line: &mut Page,
) -> Result<(), CallError> {
    let [msg_len, out_len, ..] = call.numbers;
    let mut msg_buf = [0u8; TEXT_ROOM];
    let mut out_buf = [0xa5u8; OUT_ROOM];
    let msg = part(input, &mut msg_buf, msg_len)?;
    let out = front_mut(&mut out_buf, out_len)?;
    let step = state.message(msg, out);
    *state = step.next;
    writeln!(line, "{} {} {}", step.number(), step.count(), Shown(out))?;
    Ok(())
}

fn finish(state: &mut Session, call: Call, line: &mut Page) -> Result<(), CallError> {
    let [_, out_len, tag_len, ..] = call.numbers;
    let mut out_buf = [0xa5u8; KEY_ROOM];
    let mut tag_buf = [0xa5u8; KEY_ROOM];
    let out = front_mut(&mut out_buf, out_len)?;
    let tag = front_mut(&mut tag_buf, tag_len)?;
    let step = state.finish(out, tag);
    *state = step.next;
    writeln!(
        line,
        "{} {} {} {}",
        step.number(),
        step.count(),
        Shown(out),
        Shown(tag)
    )?;
    Ok(())
}

// A session value that no run gives, as a caller can build it.
fn forge(state: &mut Session, call: Call) {
    let [_, ad_total, text_total, ..] = call.numbers;
    *state = Session {
        suite: call.suite,
        ad_total,
        text_total,
        ..*state
    };
}

// The op is its number in the input, which is looked at here alone.
fn run<R: Read>(
    input: &mut R,
    state: &mut Session,
    call: Call,
    line: &mut Page,
) -> Result<(), CallError> {
    match call.op {
        0 => start(input, state, call, line),
        1 => associated(input, state, call, line),
        2 => message(input, state, call, line),
        3 => finish(state, call, line),
        4 => {
            forge(state, call);
            Ok(())
        }
        _ => Err(CallError::Bad),
    }
}

// A call that is bad ends the run without a line here; `bad input` is printed only where the input ends inside a head.
fn unsaid(error: CallError) -> CallError {
    match error {
        CallError::Bad => CallError::Ended,
        CallError::Ended => CallError::Ended,
        CallError::Io(error) => CallError::Io(error),
    }
}

fn main(rt: HostRuntime) -> io::Result<()> {
    let mut state = Session::default();
    calls::each(&mut rt.stdin(), &mut rt.stdout(), |input, call, line| {
        run(input, &mut state, call, line).map_err(|error| unsaid(error))
    })
}
