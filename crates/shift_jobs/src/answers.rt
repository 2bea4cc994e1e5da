// The outcomes of opening and verifying a job, and their numbers in document 01.
ghost use Rattle.std.specs.Prelude.{◌≡◌};
ghost use Rattle.shift_lookup.specs.Answers.{lookup_error_answer};
ghost use Rattle.shift_jobs.specs.Answers.{job_error_answer};

use shift_lookup::answers::LookupError;
use status::checked::{Answer, Refusal, Refuses};

// Why a job is not opened, or not verified.
#[derive(Clone, Copy, PartialEq, Eq, Debug)]
pub enum JobError {
    Missing,
    Refused(Refusal),
    Ring,
    Room,
    Forged,
}

// A lookup that gives no row has the same answer here.
impl From<LookupError> for JobError {
    ghost from_gives = { λ found error. job_error_answer error ≡ lookup_error_answer found };

    fn from(found: LookupError) -> JobError {
        match found {
            LookupError::Missing => JobError::Missing,
            LookupError::Refused(refusal) => JobError::Refused(refusal),
        }
    }
}

impl Refuses for JobError {
    ghost answer_of = { job_error_answer };

    fn answer(self) -> Answer {
        match self {
            JobError::Missing => Answer { number: 32, row: 0 },
            JobError::Refused(refusal) => refusal.answer(),
            JobError::Ring => Answer { number: 2, row: 0 },
            JobError::Room => Answer { number: 6, row: 0 },
            JobError::Forged => Answer { number: 8, row: 0 },
        }
    }
}

// What opening one job gives.
pub type JobAnswer = Result<(), JobError>;

// A job's associated data, whose tag is right: its offset in the file, and its length.
#[derive(Clone, Copy, PartialEq, Eq, Debug)]
pub struct Genuine {
    pub ad_at: u32,
    pub ad_len: u32,
}
