// Prints the encryption of each input block in hexadecimal, one to a line; suite 1 by both AES engines.
// A record is a suite (1 byte), a key (16) and a block (16 bytes for suites 1 and 2, 8 for 3 and 4).
#![tactic(auto)]

use program_text::print::{Hex, Text};
use program_text::read::full;
use std::io;
use std::io::{Read, Write};

// The next N bytes of the input, with zeros for those that it lacks.
fn bytes<R: Read, const N: usize>(input: &mut R) -> io::Result<[u8; N]> {
    let mut bytes = [0u8; N];
    full(input, &mut bytes)?;
    Ok(bytes)
}

fn print_line<W: Write>(output: &mut W, block: &[u8]) -> io::Result<()> {
    let mut line = Text::<33>::new();
    writeln!(line, "{}", Hex(block))?;
    output.write_all(line.as_bytes())
}

fn answer<R: Read, W: Write>(
    input: &mut R,
    output: &mut W,
    suite: u8,
    key: [u8; 16],
) -> io::Result<()> {
    match suite {
        1 => {
            let block = bytes(input)?;
            print_line(output, &aes_plain::encrypt(key, block))?;
            print_line(output, &aes_tables::encrypt(key, block))
        }
        2 => print_line(output, &cham::encrypt128(key, bytes(input)?)),
        3 => print_line(output, &speck::encrypt(key, bytes(input)?)),
        4 => print_line(output, &cham::encrypt64(key, bytes(input)?)),
        _ => Ok(()),
    }
}

// Takes one record; false at the end of the input.
fn record<R: Read, W: Write>(input: &mut R, output: &mut W) -> io::Result<bool> {
    let mut suite = [0u8; 1];
    if full(input, &mut suite)? == 0 {
        return Ok(false);
    }
    let key = bytes(input)?;
    answer(input, output, suite[0], key)?;
    Ok(true)
}

// The end of an input is not provable, so the loop has a bound that no input reaches.
fn main(rt: HostRuntime) -> io::Result<()> {
    let mut input = rt.stdin();
    let mut output = rt.stdout();
    for _ in 0..u64::MAX {
        if !record(&mut input, &mut output)? {
            break;
        }
    }
    Ok(())
}
