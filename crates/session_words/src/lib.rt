// A session as nine 64-bit words, which a C program owns and every call borrows. Any nine words may arrive.
#![tactic(auto)]

ghost use Rattle.std.specs.Prelude.{◌≡◌, ◌<◌, get_or};
ghost use Rattle.session.specs.Structs.{as_value};
ghost use Rattle.session_words.specs.Words.{of_words, words_of};

use block::Block;
use session::Session;

// Two functions, and no From: neither type is of this crate, and a first word above 255 stands for no session.

// The session that nine words stand for.
pub fn session_of(words: [u64; 9]) -> Session
    requires { get_or words 0 0 < 256 }
    ensures { as_value result ≡ of_words words }
{
    let held = block::bytes_of(Block {
        a: words[5],
        b: words[6],
    });
    Session {
        suite: words[0] as u8,
        y: Block {
            a: words[1],
            b: words[2],
        },
        z: Block {
            a: words[3],
            b: words[4],
        },
        held,
        ad_total: words[7] as usize,
        text_total: words[8] as usize,
    }
}

// The nine words of a session.
pub fn words_of(state: Session) -> [u64; 9]
    ensures words { result ≡ words_of (as_value state) }
    ensures session { of_words result ≡ as_value state }
{
    let buffered = block::block_of(state.held);
    [
        state.suite as u64,
        state.y.a,
        state.y.b,
        state.z.a,
        state.z.b,
        buffered.a,
        buffered.b,
        state.ad_total as u64,
        state.text_total as u64,
    ]
}
