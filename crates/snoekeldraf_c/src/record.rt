// The sealer and the opener, from buffer to buffer and in place, and the verifier.
ghost use Rattle.std.specs.Prelude.{◌≡◌};
ghost use Rattle.comet.specs.Answers.{Sealed, sealing, Opened, opening, verifying};

// Seals msg into out and writes its tag to tag.
#[unsafe(no_mangle)]
pub extern "C" fn comet_seal(
    suite: u8,
    key: &[u8],
    nonce: &[u8],
    ad: &[u8],
    msg: &[u8],
    out: &mut [u8],
    tag: &mut [u8],
) -> u32
    ensures { ◌≡◌ {A = Sealed} (record { number = result; out = out.new; tag = tag.new })
        (sealing suite key.now nonce.now ad.now msg.now out.old tag.old) }
{
    snoekeldraf::record::comet_seal(suite, key, nonce, ad, msg, out, tag)
}

// Opens text into out if its tag is right; else every byte of out is 0.
#[unsafe(no_mangle)]
pub extern "C" fn comet_open(
    suite: u8,
    key: &[u8],
    nonce: &[u8],
    ad: &[u8],
    text: &[u8],
    tag: &[u8],
    out: &mut [u8],
) -> u32
    ensures { ◌≡◌ {A = Opened} (record { number = result; out = out.new })
        (opening suite key.now nonce.now ad.now text.now tag.now out.old) }
{
    snoekeldraf::record::comet_open(suite, key, nonce, ad, text, tag, out)
}

// Seals text in place and writes its tag to tag.
#[unsafe(no_mangle)]
pub extern "C" fn comet_seal_in_place(
    suite: u8,
    key: &[u8],
    nonce: &[u8],
    ad: &[u8],
    text: &mut [u8],
    tag: &mut [u8],
) -> u32
    ensures { ◌≡◌ {A = Sealed} (record { number = result; out = text.new; tag = tag.new })
        (sealing suite key.now nonce.now ad.now text.old text.old tag.old) }
{
    snoekeldraf::record::comet_seal_in_place(suite, key, nonce, ad, text, tag)
}

// Opens text in place if its tag is right; else every byte of it is 0.
#[unsafe(no_mangle)]
pub extern "C" fn comet_open_in_place(
    suite: u8,
    key: &[u8],
    nonce: &[u8],
    ad: &[u8],
    text: &mut [u8],
    tag: &[u8],
) -> u32
    ensures { ◌≡◌ {A = Opened} (record { number = result; out = text.new })
        (opening suite key.now nonce.now ad.now text.old tag.now text.old) }
{
    snoekeldraf::record::comet_open_in_place(suite, key, nonce, ad, text, tag)
}

// Whether a record is genuine: the opener's status, without writing a text anywhere.
#[unsafe(no_mangle)]
pub extern "C" fn comet_verify(
    suite: u8,
    key: &[u8],
    nonce: &[u8],
    ad: &[u8],
    text: &[u8],
    tag: &[u8],
) -> u32
    ensures { result ≡ verifying suite key.now nonce.now ad.now text.now tag.now }
{
    snoekeldraf::record::comet_verify(suite, key, nonce, ad, text, tag)
}
