// Writes a file as a whole or not at all: to a temporary file beside it first, which is then renamed over it.
use crate::PATH_MAX;
use crate::reason::{Said, say};
use program_text::print::Text;
use std::fs::{File, OpenOptions};
use std::io::{ErrorKind, Seek, SeekFrom, Write};
use std::os::unix::fs::OpenOptionsExt;
use std::random::RandomSource;
use std::{fs, io};

// A path, and after it a dot and six letters: the name of a temporary file beside it.
type TemporaryName = Text<NAME_MAX>;

const NAME_MAX: usize = PATH_MAX + 7;

// The letters of a temporary name.
const LETTERS: [u8; 62] = *b"abcdefghijklmnopqrstuvwxyzABCDEFGHIJKLMNOPQRSTUVWXYZ0123456789";

// How many names are tried before a free one counts as not to be had, as by C's mkstemp.
const TRIES: usize = 62 * 62 * 62;

// The system's errors for a name that is taken, and for bytes that are no text.
const EEXIST: i32 = 17;

const EILSEQ: i32 = 84;

// Writes the bytes; a regular file is synced then.
fn write_whole(file: &mut File, bytes: &[u8], regular: bool) -> io::Result<()> {
    file.write_all(bytes)?;
    if regular { file.sync_all() } else { Ok(()) }
}

// Writes the bytes and closes the file; a regular file is synced first. A reason is printed before the file is closed.
fn fill(
    rt: &HostRuntime,
    mut file: File,
    path: &str,
    bytes: &[u8],
    regular: bool,
) -> Result<(), Said> {
    match write_whole(&mut file, bytes, regular) {
        Ok(()) => Ok(()),
        Err(error) => Err(say(rt, path.as_bytes(), error)),
    }
}

// Renames the temporary file over the path.
fn rename(rt: &HostRuntime, name: &str, path: &str) -> Result<(), Said> {
    match fs::rename(rt, name, path) {
        Ok(()) => Ok(()),
        Err(error) => Err(say(rt, path.as_bytes(), error)),
    }
}

// Fills the temporary file of that name, and renames it over the path; removes it if that fails.
fn place(rt: &HostRuntime, file: File, name: &str, path: &str, bytes: &[u8]) -> Result<(), Said> {
    let placed = match fill(rt, file, path, bytes, true) {
        Ok(()) => rename(rt, name, path),
        Err(said) => Err(said),
    };
    if placed.is_err() {
        let _ = fs::remove_file(rt, name);
    }
    placed
}

// One of the letters.
fn letter(random: u8) -> u8 {
    LETTERS[(random % 62) as usize]
}

// The path, a dot and six random letters.
fn draw(rt: &HostRuntime, path: &str) -> io::Result<TemporaryName> {
    let mut random = [0u8; 6];
    rt.fill_bytes(&mut random)?;
    let mut name = TemporaryName::new();
    write!(name, "{path}.")?;
    for byte in random {
        name.push(&[letter(byte)]);
    }
    Ok(name)
}

// The bytes as a name, if they are UTF-8.
fn name(bytes: &[u8]) -> io::Result<&str> {
    std::str::from_utf8(bytes).map_err(|_| io::Error::from_raw_os_error(EILSEQ))
}

// Creates a file of that name, which its owner alone can read and write; fails if the name is taken.
fn new_file(rt: &HostRuntime, name: &str) -> io::Result<File> {
    OpenOptions::new()
        .read(true)
        .write(true)
        .create_new(true)
        .mode(0o600)
        .open(rt, name)
}

// Creates a temporary file beside the path.
fn create(rt: &HostRuntime, path: &str) -> io::Result<(File, TemporaryName)> {
    for _ in 0..TRIES {
        let drawn = draw(rt, path)?;
        match new_file(rt, name(drawn.as_bytes())?) {
            Ok(file) => return Ok((file, drawn)),
            Err(error) if error.kind() == ErrorKind::AlreadyExists => {}
            Err(error) => return Err(error),
        }
    }
    Err(io::Error::from_raw_os_error(EEXIST))
}

// Replaces the file by way of a temporary file beside it. That is created with mode 0600: a decrypted draft is
// never readable by others, not even while it is being written.
fn replace(rt: &HostRuntime, path: &str, bytes: &[u8]) -> Result<(), Said> {
    let (file, drawn) = match create(rt, path) {
        Ok(created) => created,
        Err(error) => return Err(say(rt, path.as_bytes(), error)),
    };
    match name(drawn.as_bytes()) {
        Ok(name) => place(rt, file, name, path, bytes),
        Err(error) => Err(say(rt, path.as_bytes(), error)),
    }
}

// Whether it is a regular file: only such a file can be truncated, here to its own length.
fn is_regular(file: &mut File) -> bool {
    match file.seek(SeekFrom::End(0)) {
        Ok(size) => file.set_len(size).is_ok(),
        Err(_) => false,
    }
}

// Whether the path names a symbolic link. A rename would replace the link itself.
fn is_link(rt: &HostRuntime, path: &str) -> bool {
    fs::symlink_metadata(rt, path).is_ok_and(|metadata| metadata.is_symlink())
}

// Overwrites the file that a link names, and creates it if it is missing; any other name is replaced.
fn follow(rt: &HostRuntime, path: &str, bytes: &[u8]) -> Result<(), Said> {
    if !is_link(rt, path) {
        return replace(rt, path, bytes);
    }
    match File::create(rt, path) {
        Ok(file) => fill(rt, file, path, bytes, true),
        Err(error) => Err(say(rt, path.as_bytes(), error)),
    }
}

// A regular file is closed again and replaced. A device or a pipe is written whole.
fn save_open(rt: &HostRuntime, mut file: File, path: &str, bytes: &[u8]) -> Result<(), Said> {
    if !is_regular(&mut file) {
        return fill(rt, file, path, bytes, false);
    }
    drop(file);
    follow(rt, path, bytes)
}

// A missing or regular file is replaced. A device or a pipe is opened once, here, and written whole.
fn save_as(rt: &HostRuntime, path: &str, bytes: &[u8]) -> Result<(), Said> {
    match OpenOptions::new().append(true).open(rt, path) {
        Ok(file) => save_open(rt, file, path, bytes),
        Err(error) if error.kind() == ErrorKind::NotFound => follow(rt, path, bytes),
        Err(error) => Err(say(rt, path.as_bytes(), error)),
    }
}

// Writes the file that an argument names, or prints why that fails, and then the old file is unchanged. No file has a name that
// is not UTF-8, as far as std can say: to write such a file fails.
pub(crate) fn save(rt: &HostRuntime, argument: usize, bytes: &[u8]) -> Result<(), Said> {
    let mut path = [0u8; PATH_MAX];
    let path = crate::arg(rt, argument, &mut path).unwrap_or(b"");
    match name(path) {
        Ok(name) => save_as(rt, name, bytes),
        Err(error) => Err(say(rt, path, error)),
    }
}
