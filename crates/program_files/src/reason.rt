// The system's reason why a file cannot be written.
use crate::PATH_MAX;
use program_text::print::Text;
use std::io;
use std::io::{Print, Write};

// The most bytes of a reason.
const REASON: usize = 256;

// The most bytes of a line: a path, a colon and a space, the reason and a line feed.
const LINE: usize = PATH_MAX + 2 + REASON + 1;

// The words before the error's number, which std prints after them, as in `File exists (os error 17)`.
fn before_number(said: &str) -> &str {
    match said.split_once(" (os error ") {
        Some((words, _)) => words,
        None => said,
    }
}

// The words of an error, of which std printed these bytes.
fn words(said: &[u8]) -> &[u8] {
    match std::str::from_utf8(said) {
        Ok(text) => before_number(text).as_bytes(),
        Err(_) => said,
    }
}

// A file cannot be written, and the reason is printed.
#[derive(Debug, Drop)]
pub(crate) struct Said;

// Prints why the file of that name cannot be written. The name need not be UTF-8.
pub(crate) fn say(rt: &HostRuntime, path: &[u8], error: io::Error) -> Said {
    let mut said = Text::<REASON>::new();
    let _ = write!(said, "{error}");
    let mut line = Text::<LINE>::new();
    line.push(path);
    line.push(b": ");
    line.push(words(said.as_bytes()));
    line.push(b"\n");
    let _ = Print::write_all(&rt.stderr(), line.as_bytes());
    Said
}
