// The sealer and the opener: COMET under every suite.
#![tactic(auto)]

mod header;

ghost use Rattle.std.specs.Prelude.{◌≡◌, true, false, ◌≤◌, length};
ghost use Rattle.block.specs.Words.{add};
ghost use Rattle.cipher.specs.Cipher.{needs_tables, TablesFit, size_of, cipher_of, limit};
ghost use Rattle.mode.specs.Blocks.{blocks};
ghost use Rattle.mode.specs.Walk.{data_done};
ghost use Rattle.block_state.specs.Two.{two_of};
ghost use Rattle.status.specs.Verdicts.{error_number, number_of, refusal};
ghost use Rattle.comet.specs.Answers.{Sealed, sealing, Opened, opening, verifying};
ghost use Rattle.comet.specs.Core.{IsTag, Crypts};
ghost use Rattle.comet.specs.Counted.{Counting, sealing_counted, opening_counted};

use block::Block;
use block_state::State;
use block_state::marks::{MARK_FIRST_DATA, MARK_FIRST_TEXT, MARK_SHORT_DATA, MARK_SHORT_TEXT};
use block_state::tag::TagAndCalls;
use cipher::{AesTables, Engine};
use header::{Header, accepted};
use status::verdict::{RecordError, Verdict};

// The status of a call, and how many cipher calls it took: a wrong tag takes them too, so the count stands beside the status.
#[derive(Clone, Copy, PartialEq, Eq, Debug)]
pub struct Counted {
    pub verdict: Verdict,
    pub calls: u64,
}

impl From<RecordError> for Counted {
    ghost from_gives = { λ e c. (number_of c.verdict ≡ error_number e) × (c.calls ≡ 0) };

    // A refusal before any work: no cipher call.
    fn from(error: RecordError) -> Counted {
        Counted {
            verdict: Err(error),
            calls: 0,
        }
    }
}

// The states after the start and the associated data. Here and below, empty inputs are skipped, so that the states stay in registers;
// inlined, so that they find the header there too.
#[inline(always)]
fn data_core(engine: &Engine, header: Header) -> State
    requires { engine.now.suite ≡ header.suite }
    ensures two { two_of engine.now.suite result ≡ data_done (cipher_of engine.now.suite) header.entry.key.now header.entry.nonce.now header.entry.ad.now }
    ensures calls { result.calls ≡ add 64 1 (length (blocks (size_of engine.now.suite) header.entry.ad.now)) }
{
    let mut state = block_state::start(engine, header.key, header.nonce);
    let ad = header.ad;
    if ad.len() != 0 {
        state = comet_text::absorb_all(engine, false, state, MARK_FIRST_DATA, MARK_SHORT_DATA, ad);
    }
    state
}

// Seals or opens text in place under these tables; returns the tag and the count of cipher calls. The direction is a value, so that one
// copy of the code serves both: `block_walk` chooses its loop by it, once a text.
fn crypt_core(tables: &[AesTables], header: Header, opening: bool, text: &mut [u8]) -> TagAndCalls
    requires { TablesFit header.suite tables.now × (length text.old ≤ limit) }
    ensures { Crypts opening header.entry text.old text.new result }
{
    let engine = Engine {
        suite: header.suite,
        tables,
    };
    let mut state = data_core(&engine, header);
    if 0 < text.len() {
        state = comet_text::crypt_all(&engine, opening, state, text);
    }
    block_state::tag::tag_of(&engine, state)
}

// `crypt_core` under the tables of AES, for suites 1 and 5. This function and the next are two, so that the 4 KiB of the tables are
// in this one's stack frame alone: the build of the archives inlines neither (tools/library).
fn crypt_with_tables(header: Header, opening: bool, text: &mut [u8]) -> TagAndCalls
    requires { (needs_tables header.suite ≡ true) × (length text.old ≤ limit) }
    ensures { Crypts opening header.entry text.old text.new result }
{
    let tables = cipher::tables(header.suite);
    crypt_core(&tables, header, opening, text)
}

// `crypt_core` without tables, for the other suites.
fn crypt_without_tables(header: Header, opening: bool, text: &mut [u8]) -> TagAndCalls
    requires { (needs_tables header.suite ≡ false) × (length text.old ≤ limit) }
    ensures { Crypts opening header.entry text.old text.new result }
{
    crypt_core(&[], header, opening, text)
}

// `crypt_core` under the tables that the suite needs, or none.
fn crypt(header: Header, opening: bool, text: &mut [u8]) -> TagAndCalls
    requires { length text.old ≤ limit }
    ensures { Crypts opening header.entry text.old text.new result }
{
    if cipher::needs_tables(header.suite) {
        return crypt_with_tables(header, opening, text);
    }
    crypt_without_tables(header, opening, text)
}

// Seals text in place and writes its tag: what sealing into another buffer and in place share.
fn seal_accepted(header: Header, text: &mut [u8], tag: &mut [u8]) -> Counted
    requires { refusal false header.suite (length header.key.now) (length header.nonce.now) (length header.ad.now)
        (length text.old) (length text.old) (length tag.old) ≡ 0 }
    ensures { ◌≡◌ {A = Counting Sealed} (record {
      leaves = record { number = number_of result.verdict; out = text.new; tag = tag.new };
      calls = result.calls;
    })
        (sealing_counted header.entry.suite header.entry.key.now header.entry.nonce.now header.entry.ad.now text.old text.old tag.old) }
{
    let done = crypt(header, false, text);
    let computed = done.tag;
    block::put_whole(computed, tag);
    Counted {
        verdict: Ok(()),
        calls: done.calls,
    }
}

// Seals msg into out, and its tag into tag, and counts the cipher calls.
pub fn seal_counted(
    suite: u8,
    key: &[u8],
    nonce: &[u8],
    ad: &[u8],
    msg: &[u8],
    out: &mut [u8],
    tag: &mut [u8],
) -> Counted
    ensures { ◌≡◌ {A = Counting Sealed} (record {
      leaves = record { number = number_of result.verdict; out = out.new; tag = tag.new };
      calls = result.calls;
    })
        (sealing_counted suite key.now nonce.now ad.now msg.now out.old tag.old) }
{
    match accepted(
        false,
        suite,
        key,
        nonce,
        ad,
        msg.len(),
        out.len(),
        tag.len(),
    ) {
        Err(error) => Counted::from(error),
        Ok(header) => {
            byte_runs::copy(msg, out);
            seal_accepted(header, out, tag)
        }
    }
}

// Seals msg into out, and its tag into tag: `seal_counted` without its count.
pub fn seal(
    suite: u8,
    key: &[u8],
    nonce: &[u8],
    ad: &[u8],
    msg: &[u8],
    out: &mut [u8],
    tag: &mut [u8],
) -> Verdict
    ensures { ◌≡◌ {A = Sealed} (record { number = number_of result; out = out.new; tag = tag.new })
        (sealing suite key.now nonce.now ad.now msg.now out.old tag.old) }
{
    seal_counted(suite, key, nonce, ad, msg, out, tag).verdict
}

// Seals text in place and writes its tag to tag.
pub fn seal_in_place(
    suite: u8,
    key: &[u8],
    nonce: &[u8],
    ad: &[u8],
    text: &mut [u8],
    tag: &mut [u8],
) -> Verdict
    ensures { ◌≡◌ {A = Sealed} (record { number = number_of result; out = text.new; tag = tag.new })
        (sealing suite key.now nonce.now ad.now text.old text.old tag.old) }
{
    let header = accepted(
        false,
        suite,
        key,
        nonce,
        ad,
        text.len(),
        text.len(),
        tag.len(),
    )?;
    seal_accepted(header, text, tag).verdict
}

// Opens text in place, or overwrites it with zeros if its tag is wrong: what opening into another buffer and in place share.
fn unseal_accepted(header: Header, text: &mut [u8], tag: &[u8]) -> Counted
    requires { refusal true header.suite (length header.key.now) (length header.nonce.now) (length header.ad.now)
        (length text.old) (length text.old) (length tag.now) ≡ 0 }
    ensures { ◌≡◌ {A = Counting Opened} (record { leaves = record { number = number_of result.verdict; out = text.new }; calls = result.calls })
        (opening_counted header.entry.suite header.entry.key.now header.entry.nonce.now header.entry.ad.now text.old tag.now text.old) }
{
    let done = crypt(header, true, text);
    let computed = done.tag;
    let right = block_state::tag::same(computed, tag);
    if !right {
        byte_runs::wipe(text);
        return Counted {
            verdict: Err(RecordError::Forged),
            calls: done.calls,
        };
    }
    Counted {
        verdict: Ok(()),
        calls: done.calls,
    }
}

// Opens text into out, if its tag is right, and counts the cipher calls; else every byte of out is 0.
pub fn unseal_counted(
    suite: u8,
    key: &[u8],
    nonce: &[u8],
    ad: &[u8],
    text: &[u8],
    tag: &[u8],
    out: &mut [u8],
) -> Counted
    ensures { ◌≡◌ {A = Counting Opened} (record { leaves = record { number = number_of result.verdict; out = out.new }; calls = result.calls })
        (opening_counted suite key.now nonce.now ad.now text.now tag.now out.old) }
{
    match accepted(
        true,
        suite,
        key,
        nonce,
        ad,
        text.len(),
        out.len(),
        tag.len(),
    ) {
        Err(error) => Counted::from(error),
        Ok(header) => {
            byte_runs::copy(text, out);
            unseal_accepted(header, out, tag)
        }
    }
}

// Opens text into out, if its tag is right; else every byte of out is 0: `unseal_counted` without its count.
pub fn unseal(
    suite: u8,
    key: &[u8],
    nonce: &[u8],
    ad: &[u8],
    text: &[u8],
    tag: &[u8],
    out: &mut [u8],
) -> Verdict
    ensures { ◌≡◌ {A = Opened} (record { number = number_of result; out = out.new })
        (opening suite key.now nonce.now ad.now text.now tag.now out.old) }
{
    unseal_counted(suite, key, nonce, ad, text, tag, out).verdict
}

// Opens text in place if its tag is right; else every byte of it is 0.
pub fn unseal_in_place(
    suite: u8,
    key: &[u8],
    nonce: &[u8],
    ad: &[u8],
    text: &mut [u8],
    tag: &[u8],
) -> Verdict
    ensures { ◌≡◌ {A = Opened} (record { number = number_of result; out = text.new })
        (opening suite key.now nonce.now ad.now text.old tag.now text.old) }
{
    let header = accepted(
        true,
        suite,
        key,
        nonce,
        ad,
        text.len(),
        text.len(),
        tag.len(),
    )?;
    unseal_accepted(header, text, tag).verdict
}

// The tag of the message that text opens to, under these tables: no text is written.
fn tag_core(tables: &[AesTables], header: Header, text: &[u8]) -> Block
    requires { TablesFit header.suite tables.now }
    ensures { IsTag true header.entry text.now result }
{
    let engine = Engine {
        suite: header.suite,
        tables,
    };
    let mut state = data_core(&engine, header);
    if text.len() != 0 {
        state = comet_text::absorb_all(
            &engine,
            true,
            state,
            MARK_FIRST_TEXT,
            MARK_SHORT_TEXT,
            text,
        );
    }
    let last = block_state::tag::tag_of(&engine, state);
    last.tag
}

// `tag_core` under the tables of AES; a function of its own, as `crypt_with_tables` is.
fn tag_with_tables(header: Header, text: &[u8]) -> Block
    requires { needs_tables header.suite ≡ true }
    ensures { IsTag true header.entry text.now result }
{
    let tables = cipher::tables(header.suite);
    tag_core(&tables, header, text)
}

// `tag_core` without tables.
fn tag_without_tables(header: Header, text: &[u8]) -> Block
    requires { needs_tables header.suite ≡ false }
    ensures { IsTag true header.entry text.now result }
{
    tag_core(&[], header, text)
}

// `tag_core` under the tables that the suite needs, or none.
fn tag_under(header: Header, text: &[u8]) -> Block
    ensures { IsTag true header.entry text.now result }
{
    if cipher::needs_tables(header.suite) {
        return tag_with_tables(header, text);
    }
    tag_without_tables(header, text)
}

// Whether a record is genuine: the opener's status, without writing a text anywhere.
pub fn verify(suite: u8, key: &[u8], nonce: &[u8], ad: &[u8], text: &[u8], tag: &[u8]) -> Verdict
    ensures { number_of result ≡ verifying suite key.now nonce.now ad.now text.now tag.now }
{
    let header = accepted(
        true,
        suite,
        key,
        nonce,
        ad,
        text.len(),
        text.len(),
        tag.len(),
    )?;
    let computed = tag_under(header, text);
    let genuine = block_state::tag::same(computed, tag);
    if !genuine {
        return Err(RecordError::Forged);
    }
    Ok(())
}
