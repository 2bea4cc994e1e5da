// Text that the programs print: built in fixed memory, and written by one call.
ghost use Rattle.std.specs.Prelude.{◌≡◌, ◌≤◌, Ok, List, [], ◌++◌, ℕ, length, take, None};
ghost use Rattle.std.specs.Io.{WritesAtMost};
ghost use Rattle.std.specs.Io.KnownBytes.{Keeps, WriteAppends, Appends};

use std::fmt::Display;
use std::io::Write;
use std::marker::Model;
use std::{fmt, io};

// A text of at most N bytes. What does not fit is left out, where std's `Cursor` would fail; and of a `Cursor` over an array no
// clause says what it holds.
#[derive(Drop)]
pub struct Text<const N: usize> {
    bytes: [u8; N],
    len: usize,
}

// A text that holds whatever a program prints: twice the longest message, and some 5,000 bytes.
pub type Page = Text<136192>;

impl<const N: usize> Model for Text<N> {
    ghost Value = { List ℕ };

    ghost view = { λ text. take text.len text.bytes };

    ghost invariant = { λ text. text.len ≤ N };
}

impl<const N: usize> Text<N> {
    // The empty text.
    pub fn new() -> Self
        ensures { result ≡ [] }
    {
        Text {
            bytes: [0u8; N],
            len: 0,
        }
    }

    pub fn as_bytes(&self) -> &[u8]
        ensures { result.now ≡ self.now }
    {
        &self.bytes[..self.len]
    }

    // Appends as many of the bytes as fit.
    pub fn push(&mut self, bytes: &[u8])
        ensures { self.new ≡ take N (self.old ++ bytes.now) }
    {
        let start = self.len;
        let count = bytes.len().min(N - start);
        let end = start + count;
        let room = &mut self.bytes[..];
        room[start..end].copy_from_slice(&bytes[..count]);
        self.len = end;
    }

    // Empties the text. Only the length changes, so that emptying a `Page` for each call costs nothing.
    pub fn clear(&mut self)
        ensures { self.new ≡ [] }
    {
        self.len = 0;
    }
}

impl<const N: usize> Write for Text<N> {
    fn write(&mut self, buf: &[u8]) -> io::Result<usize>
        ensures bound { WritesAtMost result buf.now }
        ensures bytes { WriteAppends None None result buf.now }
        ensures taken { result ≡ Ok (length buf.now) }
        ensures text { self.new ≡ take N (self.old ++ buf.now) }
    {
        self.push(buf);
        Ok(buf.len())
    }

    fn flush(&mut self) -> io::Result<()>
        ensures bytes { Keeps None None }
        ensures done { result ≡ Ok tt }
        ensures text { self.new ≡ self.old }
    {
        Ok(())
    }
}

// How many bytes are written in hex at once.
const CHUNK: usize = 32;

const DIGITS: [u8; 16] = *b"0123456789abcdef";

// The hex digits of a chunk of bytes, put at the start of room.
fn digits<'a>(bytes: &[u8], room: &'a mut [u8; 2 * CHUNK]) -> &'a str
    requires { length bytes.now ≤ 32 }
{
    for (i, byte) in bytes.iter().enumerate() {
        room[2 * i] = DIGITS[(*byte / 16) as usize];
        room[2 * i + 1] = DIGITS[(*byte % 16) as usize];
    }
    std::str::from_utf8(&room[..2 * bytes.len()]).unwrap_or("")
}

// Bytes in hex. Not byte by byte with `{byte:02x}`, which takes three times as long on a message of 64 KiB.
#[derive(Clone, Copy)]
pub struct Hex<'a>(pub &'a [u8]);

impl Display for Hex<'_> {
    fn fmt<W: fmt::Write>(&self, f: &mut fmt::Formatter<W>) -> fmt::Result {
        for chunk in self.0.chunks(CHUNK) {
            f.write_str(digits(chunk, &mut [0u8; 2 * CHUNK]))?;
        }
        Ok(())
    }
}

// Bytes as the test programs show them: in hex if there are at most 64, else their count and their fold.
#[derive(Clone, Copy)]
pub struct Shown<'a>(pub &'a [u8]);

impl Display for Shown<'_> {
    fn fmt<W: fmt::Write>(&self, f: &mut fmt::Formatter<W>) -> fmt::Result {
        let bytes = self.0;
        if bytes.len() <= 64 {
            return write!(f, "{}", Hex(bytes));
        }
        write!(f, "{}:{:08x}", bytes.len(), crate::fold::fold_of(bytes))
    }
}

// Every number of a list, a space before each.
#[derive(Clone, Copy)]
pub struct Spaced<'a>(pub &'a [u32]);

impl Display for Spaced<'_> {
    fn fmt<W: fmt::Write>(&self, f: &mut fmt::Formatter<W>) -> fmt::Result {
        for number in self.0 {
            write!(f, " {number}")?;
        }
        Ok(())
    }
}
