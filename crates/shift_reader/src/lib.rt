// The entries of a shift file: a cursor by value, a reader that holds the file and its position, and rows by number.
#![tactic(auto)]

pub mod contents;
pub mod cursor;

ghost use Rattle.std.specs.Prelude.{◌≡◌};
ghost use Rattle.shift_reader.specs.Reading.{ask_of, reader_of, next_of};

use cursor::{Cursor, Listed, Stepped, ask, start};

// The reader: the file, and its position in it.
#[derive(Clone, Copy)]
pub struct Reader<'a> {
    src: &'a [u8],
    place: Cursor,
}

// The result of a call, and the reader after it.
#[derive(Clone, Copy)]
pub struct Asked<'a> {
    pub reader: Reader<'a>,
    pub entry: Option<Listed>,
}

// The reader of a file, at its first entry.
pub fn read<'a>(src: &'a [u8]) -> Reader<'a>
    ensures { result ≡ reader_of src.entry }
{
    Reader {
        src,
        place: start(src),
    }
}

impl<'a> Reader<'a> {
    // The next entry, and the reader past it. By value, and no `Iterator`: document 02 (W14) has a cursor that is passed and
    // returned by value, and `RowsThenEnded` and `OthersRows` speak of its calls (`asks`).
    pub fn next(self) -> Asked<'a>
        ensures { result ≡ next_of self.entry }
    {
        let stepped = ask(self.place, self.src);
        Asked {
            reader: Reader {
                src: self.src,
                place: stepped.next,
            },
            entry: stepped.entry,
        }
    }
}

// The entry of a file at a cursor, and the cursor after it, by the reader: for callers that hold no reader.
pub fn step_at(file: &[u8], place: Cursor) -> Stepped
    ensures { result ≡ ask_of place file.now }
{
    let asked = Reader { src: file, place }.next();
    Stepped {
        next: asked.reader.place,
        entry: asked.entry,
    }
}
