// Runs the sealer's and opener's calls of the input, and writes a line for each.
//
// A call's numbers are the lengths of key, nonce, associated data, text, output and tag; the bytes of key, nonce,
// associated data and text follow and, to open or verify, those of the tag. Op 0 seals and 1 opens; 2 and 3 are the same,
// counted; 4 seals and 5 opens in place, and 6 verifies, without an output. A line is the number, for 2 and 3 the count of
// the cipher calls, the output (for 4 and 5 the text) and, to seal, the tag; for 6 the number alone. Buffers that
// are only written hold 0xa5 before the call.
#![tactic(auto)]

use cipher::LIMIT;
use program_text::calls;
use program_text::calls::{Call, CallError};
use program_text::print::{Page, Shown};
use program_text::read::{front_mut, part};
use status::verdict::{Verdict, number};
use std::fmt::Display;
use std::io::{Read, Write};
use std::{fmt, io};

// The most bytes that a call can have here: of associated data and of text, one more than the limit; of an output; and of key,
// nonce and tag.
const TEXT_ROOM: usize = LIMIT + 1;

const OUT_ROOM: usize = LIMIT + 4;

const KEY_ROOM: usize = 40;

// What a record is sealed and opened under.
#[derive(Clone, Copy)]
struct Context<'a> {
    suite: u8,
    key: &'a [u8],
    nonce: &'a [u8],
    ad: &'a [u8],
}

// A status, by its number.
#[derive(Clone, Copy)]
struct Status(Verdict);

impl Display for Status {
    fn fmt<W: fmt::Write>(&self, f: &mut fmt::Formatter<W>) -> fmt::Result {
        let number = number(self.0);
        write!(f, "{number}")
    }
}

// The same, and how many cipher calls it took.
#[derive(Clone, Copy)]
struct Counted(comet::Counted);

impl Display for Counted {
    fn fmt<W: fmt::Write>(&self, f: &mut fmt::Formatter<W>) -> fmt::Result {
        let Counted(counted) = *self;
        write!(f, "{} {}", number(counted.verdict), counted.calls)
    }
}

// Reads the text, and seals it into an output by the function.
fn seal<R: Read, D: Display + Drop, F>(
    input: &mut R,
    call: Call,
    line: &mut Page,
    by: F,
) -> Result<(), CallError>
where
    F: FnOnce(&[u8], &mut [u8], &mut [u8]) -> D,
    requires { F.IsAlwaysCallable by }
{
    let [_, _, _, text_len, out_len, tag_len] = call.numbers;
    let mut text_buf = [0u8; TEXT_ROOM];
    let mut out_buf = [0xa5u8; OUT_ROOM];
    let mut tag_buf = [0xa5u8; KEY_ROOM];
    let text = part(input, &mut text_buf, text_len)?;
    let out = front_mut(&mut out_buf, out_len)?;
    let tag = front_mut(&mut tag_buf, tag_len)?;
    let status = by(text, out, tag);
    writeln!(line, "{status} {} {}", Shown(out), Shown(tag))?;
    Ok(())
}

// Reads text and tag, and opens into an output by the function.
fn open<R: Read, D: Display + Drop, F>(
    input: &mut R,
    call: Call,
    line: &mut Page,
    by: F,
) -> Result<(), CallError>
where
    F: FnOnce(&[u8], &[u8], &mut [u8]) -> D,
    requires { F.IsAlwaysCallable by }
{
    let [_, _, _, text_len, out_len, tag_len] = call.numbers;
    let mut text_buf = [0u8; TEXT_ROOM];
    let mut out_buf = [0xa5u8; OUT_ROOM];
    let mut tag_buf = [0u8; KEY_ROOM];
    let text = part(input, &mut text_buf, text_len)?;
    let out = front_mut(&mut out_buf, out_len)?;
    let tag = part(input, &mut tag_buf, tag_len)?;
    let status = by(text, tag, out);
    writeln!(line, "{status} {}", Shown(out))?;
    Ok(())
}

// Reads the text and seals it in place.
fn seal_in_place<R: Read>(
    input: &mut R,
    under: Context<'_>,
    call: Call,
    line: &mut Page,
) -> Result<(), CallError> {
    let [_, _, _, text_len, _, tag_len] = call.numbers;
    let mut text_buf = [0u8; TEXT_ROOM];
    let mut tag_buf = [0xa5u8; KEY_ROOM];
    let tag = front_mut(&mut tag_buf, tag_len)?;
    let text = part(input, &mut text_buf, text_len)?;
    let Context {
        suite,
        key,
        nonce,
        ad,
    } = under;
    let status = Status(comet::seal_in_place(suite, key, nonce, ad, text, tag));
    writeln!(line, "{status} {} {}", Shown(text), Shown(tag))?;
    Ok(())
}

// Reads text and tag, and opens in place.
fn open_in_place<R: Read>(
    input: &mut R,
    under: Context<'_>,
    call: Call,
    line: &mut Page,
) -> Result<(), CallError> {
    let [_, _, _, text_len, _, tag_len] = call.numbers;
    let mut text_buf = [0u8; TEXT_ROOM];
    let mut tag_buf = [0u8; KEY_ROOM];
    let text = part(input, &mut text_buf, text_len)?;
    let tag = part(input, &mut tag_buf, tag_len)?;
    let Context {
        suite,
        key,
        nonce,
        ad,
    } = under;
    let status = Status(comet::unseal_in_place(suite, key, nonce, ad, text, tag));
    writeln!(line, "{status} {}", Shown(text))?;
    Ok(())
}

// Reads text and tag, and verifies them.
fn verify<R: Read>(
    input: &mut R,
    under: Context<'_>,
    call: Call,
    line: &mut Page,
) -> Result<(), CallError> {
    let [_, _, _, text_len, _, tag_len] = call.numbers;
    let mut text_buf = [0u8; TEXT_ROOM];
    let mut tag_buf = [0u8; KEY_ROOM];
    let text = part(input, &mut text_buf, text_len)?;
    let tag = part(input, &mut tag_buf, tag_len)?;
    let Context {
        suite,
        key,
        nonce,
        ad,
    } = under;
    let status = Status(comet::verify(suite, key, nonce, ad, text, tag));
    writeln!(line, "{status}")?;
    Ok(())
}

// The op is its number in the input, which is looked at here alone.
fn run_under<R: Read>(
    input: &mut R,
    under: Context<'_>,
    call: Call,
    line: &mut Page,
) -> Result<(), CallError> {
    let Context {
        suite,
        key,
        nonce,
        ad,
    } = under;
    match call.op {
        0 => seal(input, call, line, |text, out, tag| {
            Status(comet::seal(suite, key, nonce, ad, text, out, tag))
        }),
        1 => open(input, call, line, |text, tag, out| {
            Status(comet::unseal(suite, key, nonce, ad, text, tag, out))
        }),
        2 => seal(input, call, line, |text, out, tag| {
            Counted(comet::seal_counted(suite, key, nonce, ad, text, out, tag))
        }),
        3 => open(input, call, line, |text, tag, out| {
            Counted(comet::unseal_counted(suite, key, nonce, ad, text, tag, out))
        }),
        4 => seal_in_place(input, under, call, line),
        5 => open_in_place(input, under, call, line),
        6 => verify(input, under, call, line),
        _ => Err(CallError::Bad),
    }
}

// Reads key, nonce and associated data, and runs the call under them.
fn run<R: Read>(input: &mut R, call: Call, line: &mut Page) -> Result<(), CallError> {
    let [key_len, nonce_len, ad_len, ..] = call.numbers;
    let mut key_buf = [0u8; KEY_ROOM];
    let mut nonce_buf = [0u8; KEY_ROOM];
    let mut ad_buf = [0u8; TEXT_ROOM];
    let under = Context {
        suite: call.suite,
        key: part(input, &mut key_buf, key_len)?,
        nonce: part(input, &mut nonce_buf, nonce_len)?,
        ad: part(input, &mut ad_buf, ad_len)?,
    };
    run_under(input, under, call, line)
}

fn main(rt: HostRuntime) -> io::Result<()> {
    calls::each(
        &mut rt.stdin(),
        &mut rt.stdout(),
        |input, call, line| run(input, call, line),
    )
}
