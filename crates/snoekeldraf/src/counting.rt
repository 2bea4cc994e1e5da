// The sealer and the opener, with the count of their cipher calls.
ghost use Rattle.std.specs.Prelude.{◌≡◌};
ghost use Rattle.comet.specs.Answers.{Sealed, Opened};
ghost use Rattle.comet.specs.Counted.{Counting, sealing_counted, opening_counted};

// As comet_seal, and calls is how many cipher calls it took.
pub fn comet_seal_counted(
    suite: u8,
    key: &[u8],
    nonce: &[u8],
    ad: &[u8],
    msg: &[u8],
    out: &mut [u8],
    tag: &mut [u8],
    calls: &mut u64,
) -> u32
    ensures { ◌≡◌ {A = Counting Sealed} (record {
      leaves = record { number = result; out = out.new; tag = tag.new };
      calls = calls.new;
    })
        (sealing_counted suite key.now nonce.now ad.now msg.now out.old tag.old) }
{
    let sealed = comet::seal_counted(suite, key, nonce, ad, msg, out, tag);
    *calls = sealed.calls;
    status::verdict::number(sealed.verdict) as u32
}

// As comet_open, and calls is how many cipher calls it took.
pub fn comet_open_counted(
    suite: u8,
    key: &[u8],
    nonce: &[u8],
    ad: &[u8],
    text: &[u8],
    tag: &[u8],
    out: &mut [u8],
    calls: &mut u64,
) -> u32
    ensures { ◌≡◌ {A = Counting Opened} (record { leaves = record { number = result; out = out.new }; calls = calls.new })
        (opening_counted suite key.now nonce.now ad.now text.now tag.now out.old) }
{
    let opened = comet::unseal_counted(suite, key, nonce, ad, text, tag, out);
    *calls = opened.calls;
    status::verdict::number(opened.verdict) as u32
}
