// The sealer and the opener, from buffer to buffer and in place, and the verifier.
ghost use Rattle.std.specs.Prelude.{◌≡◌};
ghost use Rattle.comet.specs.Answers.{Sealed, sealing, Opened, opening, verifying};

// Seals msg into out and writes its tag to tag.
pub fn comet_seal(
    suite: u8,
    key: &[u8],
    nonce: &[u8],
    ad: &[u8],
    msg: &[u8],
    out: &mut [u8],
    tag: &mut [u8],
) -> u32
    ensures { ◌≡◌ {A = Sealed} (record { number = result; out = out.new; tag = tag.new })
        (sealing suite key.now nonce.now ad.now msg.now out.old tag.old) }
{
    let verdict = comet::seal(suite, key, nonce, ad, msg, out, tag);
    status::verdict::number(verdict) as u32
}

// Opens text into out if its tag is right; else every byte of out is 0.
pub fn comet_open(
    suite: u8,
    key: &[u8],
    nonce: &[u8],
    ad: &[u8],
    text: &[u8],
    tag: &[u8],
    out: &mut [u8],
) -> u32
    ensures { ◌≡◌ {A = Opened} (record { number = result; out = out.new })
        (opening suite key.now nonce.now ad.now text.now tag.now out.old) }
{
    let verdict = comet::unseal(suite, key, nonce, ad, text, tag, out);
    status::verdict::number(verdict) as u32
}

// Seals text in place and writes its tag to tag.
pub fn comet_seal_in_place(
    suite: u8,
    key: &[u8],
    nonce: &[u8],
    ad: &[u8],
    text: &mut [u8],
    tag: &mut [u8],
) -> u32
    ensures { ◌≡◌ {A = Sealed} (record { number = result; out = text.new; tag = tag.new })
        (sealing suite key.now nonce.now ad.now text.old text.old tag.old) }
{
    let verdict = comet::seal_in_place(suite, key, nonce, ad, text, tag);
    status::verdict::number(verdict) as u32
}

// Opens text in place if its tag is right; else every byte of it is 0.
pub fn comet_open_in_place(
    suite: u8,
    key: &[u8],
    nonce: &[u8],
    ad: &[u8],
    text: &mut [u8],
    tag: &[u8],
) -> u32
    ensures { ◌≡◌ {A = Opened} (record { number = result; out = text.new })
        (opening suite key.now nonce.now ad.now text.old tag.now text.old) }
{
    let verdict = comet::unseal_in_place(suite, key, nonce, ad, text, tag);
    status::verdict::number(verdict) as u32
}

// Whether a record is genuine: the opener's status, without writing a text anywhere.
pub fn comet_verify(suite: u8, key: &[u8], nonce: &[u8], ad: &[u8], text: &[u8], tag: &[u8]) -> u32
    ensures { result ≡ verifying suite key.now nonce.now ad.now text.now tag.now }
{
    let verdict = comet::verify(suite, key, nonce, ad, text, tag);
    status::verdict::number(verdict) as u32
}
