// Sealing in parts: a session by value, which every call returns.
#![tactic(auto)]

use block::Block;
use cipher::Engine;
use session_ladder::SessionError;

mod work;

ghost use Rattle.std.specs.Prelude.{◌≡◌, []};
ghost use Rattle.session.specs.Value.{data_part, text_part, ending, starting, over};
ghost use Rattle.session.specs.Structs.{as_value, number_of, count_of, gives};

// Y and Z, the buffered bytes (the first of the sixteen, as many as a total leaves over whole blocks: the totals imply how many, so
// no length stands beside them), and the bytes of associated data and of message so far. Any value may arrive: the methods have no
// precondition.
#[derive(Clone, Copy)]
pub struct Session {
    pub suite: u8,
    pub y: Block,
    pub z: Block,
    pub held: [u8; 16],
    pub ad_total: usize,
    pub text_total: usize,
}

// A session that is over.
impl Default for Session {
    ghost is_default = { λ s. as_value s ≡ over };

    fn default() -> Session {
        let zero = Block { a: 0, b: 0 };
        Session {
            suite: 0,
            y: zero,
            z: zero,
            held: [0; 16],
            ad_total: 0,
            text_total: 0,
        }
    }
}

// The result of a call: the next session, and how many bytes it wrote at the output's start, or why it was refused.
#[derive(Clone, Copy)]
pub struct Step {
    pub next: Session,
    pub outcome: Result<usize, SessionError>,
}

impl Step {
    // The status.
    pub fn number(&self) -> u8
        ensures { result ≡ number_of self.now.outcome }
    {
        match self.outcome {
            Ok(_) => 0,
            Err(error) => error.number(),
        }
    }

    // How many bytes were written: none by a refusal.
    pub fn count(&self) -> usize
        ensures { result ≡ count_of self.now.outcome }
    {
        match self.outcome {
            Ok(count) => count,
            Err(_) => 0,
        }
    }
}

impl Session {
    // Starts a session. Only suites whose engine needs tables construct them, here and below, and a part only if it completes a block.
    pub fn start(suite: u8, key: &[u8], nonce: &[u8]) -> Step
        ensures { gives result [] [] ≡ starting suite key.now nonce.now }
    {
        match session_ladder::check_start(suite, key.len(), nonce.len()) {
            Err(error) => Step {
                next: Session::default(),
                outcome: Err(error),
            },
            Ok(()) => {
                if cipher::needs_tables(suite) {
                    let tables = cipher::tables(suite);
                    let engine = Engine {
                        suite,
                        tables: &tables,
                    };
                    return work::started(&engine, key, nonce);
                }
                let engine = Engine { suite, tables: &[] };
                work::started(&engine, key, nonce)
            }
        }
    }

    // A part of the associated data.
    pub fn associated(self, part: &[u8]) -> Step
        ensures { gives result [] [] ≡ data_part (as_value self) part.now }
    {
        match session_ladder::check_data(self.suite, self.ad_total, self.text_total, part.len()) {
            Err(error) => Step {
                next: self,
                outcome: Err(error),
            },
            Ok(()) => work::take_in(self, part),
        }
    }

    // A part of the message.
    pub fn message(self, part: &[u8], out: &mut [u8]) -> Step
        ensures { gives result out.new [] ≡ text_part (as_value self) part.now out.old }
    {
        match session_ladder::check_text(
            self.suite,
            self.ad_total,
            self.text_total,
            part.len(),
            out.len(),
        ) {
            Err(error) => Step {
                next: self,
                outcome: Err(error),
            },
            Ok(()) => {
                if part.len() == 0 {
                    return Step {
                        next: self,
                        outcome: Ok(0),
                    };
                }
                work::seal_in(self, part, out)
            }
        }
    }

    // The end: the rest of the ciphertext into out, and the tag.
    pub fn finish(self, out: &mut [u8], tag: &mut [u8]) -> Step
        ensures { gives result out.new tag.new ≡ ending (as_value self) out.old tag.old }
    {
        match session_ladder::check_end(
            self.suite,
            self.ad_total,
            self.text_total,
            out.len(),
            tag.len(),
        ) {
            Err(error) => Step {
                next: self,
                outcome: Err(error),
            },
            Ok(()) => {
                if cipher::needs_tables(self.suite) {
                    let tables = cipher::tables(self.suite);
                    return work::close(&tables, self, out, tag);
                }
                work::close(&[], self, out, tag)
            }
        }
    }
}
