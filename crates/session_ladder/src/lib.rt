// The refusals of a session's four calls, from the suite, the totals and the lengths: the first that applies.
#![tactic(auto)]

ghost use Rattle.std.specs.Prelude.{◌≡◌, true, false, MatchResult};
ghost use Rattle.session_ladder.specs.Numbers.{sound, error_number, number_of, start_number, data_number, text_number, end_number};
ghost use Rattle.session_ladder.specs.declared.SessionError.TheVariants.{Record, Over};

use cipher::LIMIT;
use status::verdict::RecordError;

// Why a session refuses a call: as a sealer would, or because it is not in progress.
#[derive(Clone, Copy, PartialEq, Eq, Debug)]
pub enum SessionError {
    Record(RecordError),
    Over,
}

impl From<RecordError> for SessionError {
    ghost from_gives = { λ r e. e ≡ Record r };

    fn from(error: RecordError) -> SessionError {
        SessionError::Record(error)
    }
}

impl SessionError {
    // The refusal's number in documents 01 and 02.
    pub fn number(self) -> u8
        ensures { result ≡ error_number self }
    {
        match self {
            SessionError::Record(error) => status::verdict::number(Err(error)),
            SessionError::Over => 9,
        }
    }
}

// A start, from the lengths of key and nonce: the sealer's checks of suite, key and nonce.
pub fn check_start(suite: u8, key: usize, nonce: usize) -> Result<(), SessionError>
    ensures { number_of result ≡ start_number suite key nonce }
{
    status::verdict::under_key(false, suite, key, nonce)?;
    Ok(())
}

// That a session is in progress.
fn in_progress(suite: u8, ad_total: usize, text_total: usize) -> Result<(), SessionError>
    ensures { MatchResult result (λ _. sound suite ad_total text_total ≡ true) (λ e. (e ≡ Over) × (sound suite ad_total text_total ≡ false)) }
{
    let seals = cipher::seals(suite);
    if !seals {
        return Err(SessionError::Over);
    }
    if LIMIT < ad_total {
        return Err(SessionError::Over);
    }
    if LIMIT < text_total {
        return Err(SessionError::Over);
    }
    Ok(())
}

// A part of associated data, from its length.
pub fn check_data(
    suite: u8,
    ad_total: usize,
    text_total: usize,
    part: usize,
) -> Result<(), SessionError>
    ensures { number_of result ≡ data_number suite ad_total text_total part }
{
    in_progress(suite, ad_total, text_total)?;
    if text_total != 0 {
        return Err(SessionError::Over);
    }
    if LIMIT - ad_total < part {
        return Err(SessionError::Record(RecordError::Data));
    }
    Ok(())
}

// A part of message, from the lengths of part and output.
pub fn check_text(
    suite: u8,
    ad_total: usize,
    text_total: usize,
    part: usize,
    out: usize,
) -> Result<(), SessionError>
    ensures { number_of result ≡ text_number suite ad_total text_total part out }
{
    in_progress(suite, ad_total, text_total)?;
    if LIMIT - text_total < part {
        return Err(SessionError::Record(RecordError::Text));
    }
    let n = cipher::size_of(suite);
    if out < part + (n - 1) {
        return Err(SessionError::Record(RecordError::Room));
    }
    Ok(())
}

// The end, from the lengths of output and tag buffer.
pub fn check_end(
    suite: u8,
    ad_total: usize,
    text_total: usize,
    out: usize,
    tag: usize,
) -> Result<(), SessionError>
    ensures { number_of result ≡ end_number suite ad_total text_total out tag }
{
    in_progress(suite, ad_total, text_total)?;
    let n = cipher::size_of(suite);
    if out < n {
        return Err(SessionError::Record(RecordError::Room));
    }
    if tag != n {
        return Err(SessionError::Record(RecordError::Tag));
    }
    Ok(())
}
