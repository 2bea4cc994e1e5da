// Opened entries: `job` and `current`. After the answer, a line for each of unit, job, suite, key number, station (in
// edition 2), data (the associated data after job and unit) and message. Bytes are shown as text if a person can read them
// (`readable`), else in hex.
ghost use Rattle.shift_format.specs.Format.{row_size_of};
ghost use Rattle.shift_format.specs.Inside.{EntryIn};
ghost use Rattle.shift_lookup.specs.Answers.{found_answer};
ghost use Rattle.shift_lookup.specs.Inside.{FoundIn};

use crate::readable::Readable;
use cipher::LIMIT;
use shift_amend::{Source, look_up};
use shift_format::body::data_of;
use shift_format::row::station_of;
use shift_jobs::answers::JobError;
use shift_jobs::found::open_found;
use shift_lookup::answers::Found;
use shift_lookup::found::{entry_found, row_of};
use status::checked::Refuses;
use std::fmt::Display;
use std::io;
use std::io::Write;

// A unit by its number and in words.
fn unit_line<W: Write>(out: &mut W, unit: u8) -> io::Result<()> {
    match unit {
        1 => writeln!(out, "unit 1 newton-metres"),
        2 => writeln!(out, "unit 2 inch-pounds"),
        _ => writeln!(out, "unit {unit}"),
    }
}

// The lines of an opened row. The unit is the fifth byte of the associated data, after the job. Edition 2 has a station in every row.
fn entry_lines<W: Write>(out: &mut W, file: &[u8], index: usize, message: &[u8]) -> io::Result<()>
    requires { EntryIn (row_size_of file.now) file.now index }
{
    let row = row_of(file, index);
    let ad = data_of(file, row);
    let rest = match ad {
        [_, _, _, _, unit, rest @ ..] => {
            unit_line(out, *unit)?;
            rest
        }
        _ => &[],
    };
    writeln!(out, "job {}\nsuite {}\nkey {}", row.job, row.suite, row.key)?;
    if let [2, 0, ..] = file {
        writeln!(out, "station {}", station_of(file, index))?;
    }
    writeln!(
        out,
        "data {}\nmessage {}",
        Readable(rest),
        Readable(message)
    )
}

// The lines of the row that the lookup found; none if it found none.
fn lines_of<W: Write>(out: &mut W, file: &[u8], found: Found, message: &[u8]) -> io::Result<()>
    requires { FoundIn file.now (found_answer found) }
{
    match found {
        Ok(index) => entry_lines(out, file, index, message),
        Err(_) => Ok(()),
    }
}

// Opens what the lookup found into a buffer that holds every message.
fn opened<'a>(
    file: &[u8],
    ring: &[u8],
    found: Found,
    room: &'a mut [u8; LIMIT],
) -> Result<&'a [u8], JobError>
    requires { FoundIn file.now (found_answer found) }
{
    let len = entry_found(file, found)?.text_len as usize;
    let message = &mut room[..len.min(LIMIT)];
    open_found(file, ring, found, message)?;
    Ok(message)
}

// Opens what the lookup found: status, what the caller names, and row on one line and, after status 0, the lines of the entry.
fn open<W: Write, D: Display + Drop>(
    out: &mut W,
    file: &[u8],
    ring: &[u8],
    found: Found,
    named: D,
) -> io::Result<()>
    requires { FoundIn file.now (found_answer found) }
{
    let mut room = [0u8; LIMIT];
    match opened(file, ring, found, &mut room) {
        Ok(message) => {
            writeln!(out, "0{named} 0")?;
            lines_of(out, file, found, message)
        }
        Err(error) => {
            let answer = error.answer();
            writeln!(out, "{}{named} {}", answer.number, answer.row)
        }
    }
}

// Looks the job up and opens what it finds (`open`). Only the lookup checks the file.
pub fn write_job<W: Write>(file: &[u8], ring: &[u8], job: u32, out: &mut W) -> io::Result<()> {
    open(out, file, ring, shift_lookup::lookup(file, job), "")
}

// Looks the job up in both files and opens the current entry (`open`), with the number of its file on the first line. Only the
// lookup checks the files.
pub fn write_current<W: Write>(
    amendment: &[u8],
    day: &[u8],
    ring: &[u8],
    job: u32,
    out: &mut W,
) -> io::Result<()> {
    let looked = look_up(amendment, day, job);
    let found = looked.found;
    match looked.file {
        Source::Amendment => open(out, amendment, ring, found, " 1"),
        Source::Day => open(out, day, ring, found, " 2"),
        Source::Neither => open(out, day, ring, found, " 0"),
    }
}
