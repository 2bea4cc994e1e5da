// The statuses of a move, and their numbers in documents 01 and 02.
ghost use Rattle.std.specs.Prelude.{◌≡◌};
ghost use Rattle.shift_editions.specs.declared.answers.MoveError.TheVariants.{Refused};
ghost use Rattle.shift_editions.specs.Answers.{move_answer};

use status::checked::{Answer, Refusal, Refuses};

// Why a move to another edition is refused.
#[derive(Clone, Copy, PartialEq, Eq, Debug)]
pub enum MoveError {
    Refused(Refusal),
    Station(usize),
    Room,
}

// What a move to another edition gives.
pub type Moved = Result<(), MoveError>;

impl From<Refusal> for MoveError {
    ghost from_gives = { λ refusal error. error ≡ Refused refusal };

    fn from(refusal: Refusal) -> MoveError {
        MoveError::Refused(refusal)
    }
}

impl Refuses for MoveError {
    ghost answer_of = { move_answer };

    fn answer(self) -> Answer {
        match self {
            MoveError::Refused(refusal) => refusal.answer(),
            MoveError::Station(row) => Answer { number: 35, row },
            MoveError::Room => Answer { number: 6, row: 0 },
        }
    }
}
