// The answers of the check, and their numbers in document 01.
ghost use Rattle.std.specs.Prelude.{◌≡◌, ◌≤◌};
ghost use Rattle.status.specs.declared.checked.Answer.{Answer};
ghost use Rattle.status.specs.Answers.{answer, fault_number, refusal_answer, outcome_answer};

// A number of document 01 and the row that it carries.
#[derive(Clone, Copy, PartialEq, Eq, Debug)]
pub struct Answer {
    pub number: u8,
    pub row: usize,
}

// What is wrong with a row.
#[derive(Clone, Copy, PartialEq, Eq, Debug)]
pub enum Fault {
    Order,
    Suite,
    Length,
    Place,
    Unread,
    Nonce,
    Data,
}

impl From<Fault> for u8 {
    ghost from_gives = { λ fault number. number ≡ fault_number fault };

    fn from(fault: Fault) -> u8 {
        match fault {
            Fault::Order => 25,
            Fault::Suite => 26,
            Fault::Length => 27,
            Fault::Place => 28,
            Fault::Unread => 34,
            Fault::Nonce => 29,
            Fault::Data => 30,
        }
    }
}

// What the check of one row finds.
pub type RowCheck = Result<(), Fault>;

// Why a file is refused.
#[derive(Clone, Copy, PartialEq, Eq, Debug)]
pub enum Refusal {
    Size,
    Edition,
    Count,
    Total,
    Table,
    InRow(Fault, usize),
    End,
}

// What the full check finds.
pub type Checked = Result<(), Refusal>;

// An error whose answer stands in document 01.
pub trait Refuses {
    ghost answer_of: { Self → Answer };

    // The error's number, and the row that it carries.
    fn answer(self) -> Answer
        ensures { result ≡ answer_of self };
}

impl Refuses for Refusal {
    ghost answer_of = { refusal_answer };

    fn answer(self) -> Answer {
        match self {
            Refusal::Size => Answer { number: 20, row: 0 },
            Refusal::Edition => Answer { number: 21, row: 0 },
            Refusal::Count => Answer { number: 22, row: 0 },
            Refusal::Total => Answer { number: 23, row: 0 },
            Refusal::Table => Answer { number: 24, row: 0 },
            Refusal::InRow(fault, row) => Answer {
                number: fault.into(),
                row: row,
            },
            Refusal::End => Answer { number: 31, row: 0 },
        }
    }
}

// The answer of an outcome: its error's, or number 0 and row 0.
pub fn answered<E: Refuses>(outcome: Result<(), E>) -> Answer
    ensures { result ≡ outcome_answer E.answer_of outcome }
{
    match outcome {
        Ok(()) => Answer { number: 0, row: 0 },
        Err(error) => error.answer(),
    }
}

// Writes the row that an answer carries, and returns its number.
pub fn say(outcome: Answer, row: &mut u32) -> u32
    requires { outcome.row ≤ 512 }
    ensures { answer result row.new ≡ outcome }
{
    *row = outcome.row as u32;
    outcome.number as u32
}
