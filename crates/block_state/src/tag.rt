// The tag: computed, and compared as a whole.
ghost use Rattle.std.specs.Prelude.{◌≡◌, ◌-◌, ◌⊎◌, length, take, drop, replicate};
ghost use Rattle.block.specs.Blocks.{wide};
ghost use Rattle.block.specs.Bytes.{same_bytes};
ghost use Rattle.cipher.specs.Cipher.{size_of, cipher_of};
ghost use Rattle.mode.specs.Walk.{tagged};
ghost use Rattle.block_state.specs.Two.{two_of, Clean, one_more_of};

use crate::State;
use crate::marks::MARK_TAG;
use block::Block;
use cipher::Engine;

// The tag, and how many cipher calls were made: its own is the last.
#[derive(Clone, Copy)]
pub struct TagAndCalls {
    pub tag: Block,
    pub calls: u64,
}

// The tag of a state: the last call, under the last mark.
pub fn tag_of(engine: &Engine, state: State) -> TagAndCalls
    ensures tag { take (size_of engine.now.suite) (wide result.tag) ≡ tagged (cipher_of engine.now.suite) (two_of engine.now.suite state) }
    ensures rest { Clean engine.now.suite result.tag × (result.calls ≡ one_more_of state.calls) }
{
    let key = block_key::next_key(engine.suite, state.z, MARK_TAG);
    TagAndCalls {
        tag: crate::image(engine, engine.size(), key, state.y),
        calls: state.calls.wrapping_add(1),
    }
}

// Whether the computed tag starts with the given one and is zero after it. All differences are collected before the single test, so there is no early exit.
pub fn same(made: Block, tag: &[u8]) -> bool
    requires { ((length tag.now ≡ 16) ⊎ (length tag.now ≡ 8)) × (drop (length tag.now) (wide made) ≡ replicate (16 - length tag.now) 0) }
    ensures { result ≡ same_bytes (take (length tag.now) (wide made)) tag.now }
{
    let given = block::whole(tag);
    block::same(made, given)
}
