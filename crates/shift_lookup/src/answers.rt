// The outcomes of lookup and entry, and their numbers in document 01.
ghost use Rattle.std.specs.Prelude.{◌≡◌};
ghost use Rattle.shift_lookup.specs.declared.answers.LookupError.TheVariants.{Refused};
ghost use Rattle.shift_lookup.specs.Answers.{lookup_error_answer, found_answer};

use status::checked::{Answer, Refusal, Refuses};

// Why a lookup gives no row.
#[derive(Clone, Copy, PartialEq, Eq, Debug)]
pub enum LookupError {
    Missing,
    Refused(Refusal),
}

impl From<Refusal> for LookupError {
    ghost from_gives = { λ refusal error. error ≡ Refused refusal };

    fn from(refusal: Refusal) -> LookupError {
        LookupError::Refused(refusal)
    }
}

impl Refuses for LookupError {
    ghost answer_of = { lookup_error_answer };

    fn answer(self) -> Answer {
        match self {
            LookupError::Missing => Answer { number: 32, row: 0 },
            LookupError::Refused(refusal) => refusal.answer(),
        }
    }
}

// What a lookup finds: the row that has the job.
pub type Found = Result<usize, LookupError>;

// The answer of a lookup: number 0 and the row, or its error's.
pub fn answer_of(found: Found) -> Answer
    ensures { result ≡ found_answer found }
{
    match found {
        Ok(row) => Answer {
            number: 0,
            row: row,
        },
        Err(error) => error.answer(),
    }
}

// A job's entry: its row, and offsets and lengths in the file of its associated data and its text.
#[derive(Clone, Copy, PartialEq, Eq, Debug)]
pub struct Entry {
    pub row: usize,
    pub ad_at: u32,
    pub ad_len: u32,
    pub text_at: u32,
    pub text_len: u32,
}
