// What a record is sealed or opened under, and the checks that come before any work.
ghost use Rattle.std.specs.Prelude.{◌≡◌, ◌≤◌, length, MatchResult};
ghost use Rattle.cipher.specs.Cipher.{IsSuite, nonce_of, limit};
ghost use Rattle.status.specs.Verdicts.{error_number, refusal};

use status::verdict::{RecordError, refused};

// A suite, with a key, a nonce and associated data of lengths that it accepts.
#[derive(Clone, Copy)]
pub struct Header<'a> {
    pub suite: u8,
    pub key: &'a [u8],
    pub nonce: &'a [u8],
    pub ad: &'a [u8],
    ghost known: { IsSuite suite },
    ghost key_length: { length key.now ≡ 16 },
    ghost nonce_length: { length nonce.now ≡ nonce_of suite },
    ghost ad_length: { length ad.now ≤ limit },
}

// The header of a call with these buffers, or why the sealer or the opener refuses it; text, out and tag are lengths.
pub fn accepted<'a>(
    opening: bool,
    suite: u8,
    key: &'a [u8],
    nonce: &'a [u8],
    ad: &'a [u8],
    text: usize,
    out: usize,
    tag: usize,
) -> Result<Header<'a>, RecordError>
    ensures { MatchResult result
        (λ h. (refusal opening suite (length key.now) (length nonce.now) (length ad.now) text out tag ≡ 0)
        × (h.suite ≡ suite) × (h.key.now ≡ key.now) × (h.nonce.now ≡ nonce.now) × (h.ad.now ≡ ad.now))
        (λ e. error_number e ≡ refusal opening suite (length key.now) (length nonce.now) (length ad.now) text out tag) }
{
    refused(
        opening,
        suite,
        key.len(),
        nonce.len(),
        ad.len(),
        text,
        out,
        tag,
    )?;
    Ok(Header {
        suite,
        key,
        nonce,
        ad,
    })
}
