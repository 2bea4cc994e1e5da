// Shared by the plant's programs: their arguments, the files that these name, and the answer of programs that write a file.
#![tactic(auto)]

mod reason;
mod save;

ghost use Rattle.std.specs.Prelude.{◌≤◌, IfSome, length};

use program_text::read::front;
use status::checked::Answer;
use std::env::{Env, FillError};
use std::fs::File;
use std::io::Read;

// The most bytes of a path.
pub(crate) const PATH_MAX: usize = 4096;

// The most bytes of a word: an argument that is no path.
pub const WORD_MAX: usize = 16;

// Whether the program was started with an argument at this place. One that is longer than the room counts too.
fn is_given(rt: &HostRuntime, place: usize) -> bool {
    !matches!(rt.arg(place, &mut [0u8; 1]), Err(FillError::NotPresent))
}

// How many arguments the program was started with, its own name among them.
pub fn arg_count(rt: &HostRuntime) -> usize {
    (0..usize::MAX)
        .find(|place| !is_given(rt, *place))
        .unwrap_or(usize::MAX)
}

// An argument, put at the start of room; none if it is missing or longer than room.
pub(crate) fn arg<'a>(rt: &HostRuntime, place: usize, room: &'a mut [u8]) -> Option<&'a [u8]>
    ensures { IfSome result (λ word. length word.now ≤ length room.old) }
{
    let len = rt.arg(place, room).ok()?;
    Some(&room[..len])
}

// An argument of at most 16 bytes; none if it is missing, longer, or no UTF-8.
pub fn word<'a>(rt: &HostRuntime, place: usize, room: &'a mut [u8; WORD_MAX]) -> Option<&'a str> {
    std::str::from_utf8(arg(rt, place, room)?).ok()
}

// The number of 32 bits that the digits spell. `parse` takes a sign too, and a job has none.
fn spelled(digits: &str) -> Option<u32> {
    if digits.starts_with('+') {
        return None;
    }
    digits.parse().ok()
}

// The job that an argument spells.
pub fn job(rt: &HostRuntime, place: usize) -> Option<u32> {
    spelled(word(rt, place, &mut [0u8; WORD_MAX])?)
}

// Reads until buf is full, the file ends or a read fails, and returns how many bytes it put at the start of buf.
fn read_full(file: &mut File, buf: &mut [u8]) -> usize
    ensures { result ≤ length buf.new }
{
    let mut done: usize = 0;
    while done < buf.len() {
        let got = file.read(&mut buf[done..]).unwrap_or(0);
        if got == 0 {
            return done;
        }
        done += got;
    }
    done
}

// Reads the file that an argument names into buf, and returns how many bytes it has; none if they fill buf, or if no read says that
// the file ends there. A read that fails is tried once more, so that one which is interrupted at the end loses no file.
fn loaded(rt: &HostRuntime, place: usize, buf: &mut [u8]) -> Option<usize> {
    let mut path = [0u8; PATH_MAX];
    let path = std::str::from_utf8(arg(rt, place, &mut path)?).ok()?;
    let mut file = File::open(rt, path).ok()?;
    let len = read_full(&mut file, buf);
    if len == buf.len() || !matches!(file.read(&mut [0u8; 1]), Ok(0)) {
        return None;
    }
    Some(len)
}

// The file that an argument names, read into buf, which has one byte more than the program takes. A file that is longer, or
// cannot be read to its end, counts as zero bytes. So does one whose name is not UTF-8, since no file is opened by such a name.
pub fn load<'a>(rt: &HostRuntime, place: usize, buf: &'a mut [u8]) -> &'a [u8] {
    let len = loaded(rt, place, buf).unwrap_or(0);
    front(buf, len)
}

// The output of a program that writes a file: number and row, once the file is written under the name of an argument if the number
// is 0; or that it cannot be written.
pub fn answered(rt: &HostRuntime, answer: Answer, file: &[u8], place: usize) {
    let _ = if answer.number == 0 && save::save(rt, place, file).is_err() {
        println!(rt; "OUT cannot be written")
    } else {
        println!(rt; "{} {}", answer.number, answer.row)
    };
}
