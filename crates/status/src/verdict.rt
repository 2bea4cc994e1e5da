// The statuses of sealer and opener, and the order of their checks.
ghost use Rattle.std.specs.Prelude.{◌≡◌};
ghost use Rattle.status.specs.Verdicts.{number_of, takes, under_key, texts_number, refusal};

use cipher::LIMIT;

// Why a call is refused.
#[derive(Clone, Copy, PartialEq, Eq, Debug)]
pub enum RecordError {
    Suite,
    Key,
    Nonce,
    Data,
    Text,
    Room,
    Tag,
    Forged,
    Retired,
}

// The status of a call.
pub type Verdict = Result<(), RecordError>;

// The status's number in documents 01 and 02.
pub fn number(verdict: Verdict) -> u8
    ensures { result ≡ number_of verdict }
{
    match verdict {
        Ok(()) => 0,
        Err(RecordError::Suite) => 1,
        Err(RecordError::Key) => 2,
        Err(RecordError::Nonce) => 3,
        Err(RecordError::Data) => 4,
        Err(RecordError::Text) => 5,
        Err(RecordError::Room) => 6,
        Err(RecordError::Tag) => 7,
        Err(RecordError::Forged) => 8,
        Err(RecordError::Retired) => 10,
    }
}

// Whether a call accepts the suite, which exists: opening always does, sealing if the suite seals.
fn takes(opening: bool, suite: u8) -> bool
    ensures { result ≡ takes opening suite }
{
    if opening {
        return true;
    }
    cipher::seals(suite)
}

// Numbers 4 to 7 in the order of the table: the second half of the checks.
fn texts_refused(suite: u8, ad: usize, text: usize, out: usize, tag: usize) -> Verdict
    ensures { number_of result ≡ texts_number suite ad text out tag }
{
    if LIMIT < ad {
        return Err(RecordError::Data);
    }
    if LIMIT < text {
        return Err(RecordError::Text);
    }
    if out != text {
        return Err(RecordError::Room);
    }
    let size = cipher::size_of(suite);
    if tag != size {
        return Err(RecordError::Tag);
    }
    Ok(())
}

// Numbers 1, 10, 2 and 3 in the order of the table, from the suite and the lengths of key and nonce: the first half of the
// checks, which a session's start shares.
pub fn under_key(opening: bool, suite: u8, key: usize, nonce: usize) -> Verdict
    ensures { number_of result ≡ under_key (takes opening suite) suite key nonce 0 }
{
    let had = cipher::is_suite(suite);
    let taken = takes(opening, suite);
    if !had {
        return Err(RecordError::Suite);
    }
    if !taken {
        return Err(RecordError::Retired);
    }
    if key != cipher::KEY_LEN {
        return Err(RecordError::Key);
    }
    let size = cipher::nonce_size(suite);
    if nonce != size {
        return Err(RecordError::Nonce);
    }
    Ok(())
}

// Numbers 1, 10 and 2 to 7 in the order of the table, from the suite and the lengths of key, nonce, associated data, text, output and tag.
pub fn refused(
    opening: bool,
    suite: u8,
    key: usize,
    nonce: usize,
    ad: usize,
    text: usize,
    out: usize,
    tag: usize,
) -> Verdict
    ensures { number_of result ≡ refusal opening suite key nonce ad text out tag }
{
    under_key(opening, suite, key, nonce)?;
    texts_refused(suite, ad, text, out, tag)
}
