// Sealing in parts: the caller owns the session as nine words, and every call borrows them. Any nine words may arrive.
ghost use Rattle.std.specs.Prelude.{◌≡◌, [], replicate};
ghost use Rattle.session.specs.Value.{starting, data_part, text_part, ending};
ghost use Rattle.session_words.specs.Words.{of_words, after, in_words};

use session::Session;
use session_words::{session_of, words_of};

// Starts a session. A refused start leaves nine zeros, for which every later call returns 9.
pub fn comet_session_start(state: &mut [u64; 9], suite: u8, key: &[u8], nonce: &[u8]) -> u32
    ensures { after result 0 state.new [] [] ≡ in_words (starting suite key.now nonce.now) }
{
    let step = Session::start(suite, key, nonce);
    let next = step.next;
    *state = words_of(next);
    step.number() as u32
}

// A part of the associated data.
pub fn comet_session_data(state: &mut [u64; 9], ad: &[u8]) -> u32
    ensures { after result 0 state.new [] [] ≡ in_words (data_part (of_words state.old) ad.now) }
{
    let words = *state;
    if words[0] > 255 {
        return 9;
    }
    let step = session_of(words).associated(ad);
    let next = step.next;
    *state = words_of(next);
    step.number() as u32
}

// A part of the message.
pub fn comet_session_part(state: &mut [u64; 9], msg: &[u8], out: &mut [u8], count: &mut u32) -> u32
    ensures { after result count.new state.new out.new []
        ≡ in_words (text_part (of_words state.old) msg.now out.old) }
{
    let words = *state;
    if words[0] > 255 {
        *count = 0;
        return 9;
    }
    let step = session_of(words).message(msg, out);
    let next = step.next;
    *state = words_of(next);
    *count = step.count() as u32;
    step.number() as u32
}

// The end: the rest of the ciphertext into out, and the tag; the session is over.
pub fn comet_session_end(
    state: &mut [u64; 9],
    out: &mut [u8],
    tag: &mut [u8],
    count: &mut u32,
) -> u32
    ensures { after result count.new state.new out.new tag.new
        ≡ in_words (ending (of_words state.old) out.old tag.old) }
{
    let words = *state;
    if words[0] > 255 {
        *count = 0;
        return 9;
    }
    let step = session_of(words).finish(out, tag);
    let next = step.next;
    *state = words_of(next);
    *count = step.count() as u32;
    step.number() as u32
}

// Wipes a session: nine zeros, for which every later call returns 9.
pub fn comet_session_wipe(state: &mut [u64; 9])
    ensures { state.new ≡ replicate 9 0 }
{
    *state = [0u64; 9];
}
