// The result of a report, and its numbers in documents 01 and 02.
ghost use Rattle.std.specs.Prelude.{◌≡◌};
ghost use Rattle.shift_report.specs.declared.answers.ReportError.TheVariants.{Refused};
ghost use Rattle.shift_report.specs.Reporting.{report_error_answer, said_of};

use status::checked::{Answer, Refusal, Refuses};

// What C sees of a report: a number and the row that it carries, and how many entries there are.
#[derive(Clone, Copy, PartialEq, Eq, Debug)]
pub struct ReportSummary {
    pub number: u8,
    pub row: usize,
    pub count: usize,
}

// Why there is no report: the file is refused, the ring is not of 256 bytes, or a list has fewer elements than the file has
// entries.
#[derive(Clone, Copy, PartialEq, Eq, Debug)]
pub enum ReportError {
    Refused(Refusal),
    Ring,
    Room,
}

impl From<Refusal> for ReportError {
    ghost from_gives = { λ refusal error. error ≡ Refused refusal };

    fn from(refusal: Refusal) -> ReportError {
        ReportError::Refused(refusal)
    }
}

impl Refuses for ReportError {
    ghost answer_of = { report_error_answer };

    fn answer(self) -> Answer {
        match self {
            ReportError::Refused(refusal) => refusal.answer(),
            ReportError::Ring => Answer { number: 2, row: 0 },
            ReportError::Room => Answer { number: 6, row: 0 },
        }
    }
}

// How many entries a file has, or why there is no report.
pub type Reported = Result<usize, ReportError>;

// What C sees of it: an error has no entries.
pub fn said(reported: Reported) -> ReportSummary
    ensures { result ≡ said_of reported }
{
    match reported {
        Ok(count) => ReportSummary {
            number: 0,
            row: 0,
            count: count,
        },
        Err(error) => {
            let answer = error.answer();
            ReportSummary {
                number: answer.number,
                row: answer.row,
                count: 0,
            }
        }
    }
}
