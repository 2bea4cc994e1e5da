// How bytes are shown: as text if a person can read them, else in hex.
//
// A person can read UTF-8 in which every character is shown as itself. Control characters can change a terminal, and characters
// that set the direction of writing can make a line read otherwise than it was written. So a text with one of them is not shown
// as text.
use program_text::print::Hex;
use std::fmt;
use std::fmt::Display;

// What sets the direction of writing: marks, embeddings, overrides and isolates. U+2028 and U+2029, which end a line and a
// paragraph, are refused with them.
fn is_direction(character: char) -> bool {
    matches!(
        character,
        '\u{61c}' | '\u{200e}' | '\u{200f}' | '\u{2028}'..='\u{202e}' | '\u{2066}'..='\u{2069}'
    )
}

// Whether a character is shown as itself. The byte order mark is not.
fn is_shown(character: char) -> bool {
    !character.is_control() && !is_direction(character) && character != '\u{feff}'
}

// The bytes as text, if every character of it is shown as itself.
fn text(bytes: &[u8]) -> Option<&str> {
    std::str::from_utf8(bytes)
        .ok()
        .filter(|text| text.chars().all(is_shown))
}

// Bytes, and before them how they are shown.
#[derive(Clone, Copy)]
pub(crate) struct Readable<'a>(pub(crate) &'a [u8]);

impl Display for Readable<'_> {
    fn fmt<W: fmt::Write>(&self, f: &mut fmt::Formatter<W>) -> fmt::Result {
        let bytes = self.0;
        match text(bytes) {
            Some("") => write!(f, "empty"),
            Some(text) => write!(f, "text {text}"),
            None => write!(f, "hex {}", Hex(bytes)),
        }
    }
}
