// Numbers in decimal, put into a small buffer and written by one call. `write!` makes a call for each number and for each text
// between two, and takes three to five times as long on a call of very many lines.
ghost use Rattle.std.specs.Prelude.{◌≤◌};

use std::io;
use std::io::Write;

// Ten numbers of twenty digits, a space before each; and the end of the line.
const LAST: usize = 210;

const ROOM: usize = LAST + 1;

// Puts the digits of a number into room, so that they end before `end`, and returns where they start. What does not fit is left
// out.
fn digits(number: u64, room: &mut [u8; ROOM], end: usize) -> usize
    requires { end ≤ 210 }
    ensures { result ≤ end }
{
    let mut left = number;
    let mut at = end;
    while 0 < at {
        at -= 1;
        room[at] = b'0' + (left % 10) as u8;
        left /= 10;
        if left == 0 {
            return at;
        }
    }
    at
}

// Puts the numbers into room, which holds spaces, up to its last byte, a space before each, and returns where they start.
fn put(numbers: &[u64], room: &mut [u8; ROOM]) -> usize
    ensures { result ≤ 210 }
{
    let mut at = LAST;
    for number in numbers.iter().rev() {
        at = digits(*number, room, at).saturating_sub(1);
    }
    at
}

// At most ten numbers, a space before each.
pub(crate) fn spaced<W: Write>(numbers: &[u64], output: &mut W) -> io::Result<()> {
    let mut room = [b' '; ROOM];
    let start = put(numbers, &mut room);
    output.write_all(&room[start..LAST])
}

// A line of a number and at most nine others.
pub(crate) fn line<W: Write>(first: u64, others: &[u64], output: &mut W) -> io::Result<()> {
    let mut room = [b' '; ROOM];
    let end = put(others, &mut room);
    let start = digits(first, &mut room, end);
    room[LAST] = b'\n';
    output.write_all(&room[start..])
}
