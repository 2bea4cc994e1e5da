// The writer's statuses, and their numbers in documents 01 and 02.
ghost use Rattle.std.specs.Prelude.{◌≡◌};
ghost use Rattle.shift_writer.specs.declared.answers.WriteError.TheVariants.{Refused};
ghost use Rattle.shift_writer.specs.Answers.{write_answer};

use status::checked::{Answer, Refusal, Refuses};

// Why a draft is not sealed, or a file not unsealed.
#[derive(Clone, Copy, PartialEq, Eq, Debug)]
pub enum WriteError {
    Refused(Refusal),
    TagSet(usize),
    Retired(usize),
    Ring,
    Room,
    Forged(usize),
}

// What sealing a draft, or unsealing a file, gives.
pub type Written = Result<(), WriteError>;

impl From<Refusal> for WriteError {
    ghost from_gives = { λ refusal error. error ≡ Refused refusal };

    fn from(refusal: Refusal) -> WriteError {
        WriteError::Refused(refusal)
    }
}

impl Refuses for WriteError {
    ghost answer_of = { write_answer };

    fn answer(self) -> Answer {
        match self {
            WriteError::Refused(refusal) => refusal.answer(),
            WriteError::TagSet(row) => Answer {
                number: 33,
                row: row,
            },
            WriteError::Retired(row) => Answer {
                number: 10,
                row: row,
            },
            WriteError::Ring => Answer { number: 2, row: 0 },
            WriteError::Room => Answer { number: 6, row: 0 },
            WriteError::Forged(row) => Answer {
                number: 8,
                row: row,
            },
        }
    }
}
