// The two states Y and Z of COMET: their start, the cipher call of a block, absorbing a block, and the tag.
#![tactic(auto)]

pub mod marks;
pub mod tag;

ghost use Rattle.std.specs.Prelude.{◌≡◌, length, take};
ghost use Rattle.block.specs.Xors.{xors};
ghost use Rattle.block.specs.Blocks.{wide};
ghost use Rattle.cipher.specs.Cipher.{size_of, nonce_of, cipher_of};
ghost use Rattle.mode.specs.Walk.{origin};
ghost use Rattle.block_state.specs.Two.{two_of, Clean, Holds, one_more_of, imaged};

use block::Block;
use block_key::Keyed;
use cipher::Engine;

// Y in the first bytes of y, as many as the suite's block has, Z, and the number of cipher calls so far. The count wraps
// modulo 2^64, so that it adds no precondition for callers who do not read it.
#[derive(Clone, Copy)]
pub struct State {
    pub y: Block,
    pub z: Block,
    pub calls: u64,
}

// The initial state for a key and a nonce, by one cipher call.
pub fn start(engine: &Engine, key: &[u8], nonce: &[u8]) -> State
    requires { (length key.now ≡ 16) × (length nonce.now ≡ nonce_of engine.now.suite) }
    ensures { Holds engine.now.suite result (origin (cipher_of engine.now.suite) key.now nonce.now) 1 }
{
    let key_block = block::sixteen(key);
    if engine.size() == 16 {
        let nonce_block = block::sixteen(nonce);
        // Constructed where it is borrowed: a borrowed value is spilled to the stack where it is defined, and an 8-byte block needs no spill.
        let key = Block {
            a: key_block.a,
            b: key_block.b,
        };
        let z = engine.encipher16(key, nonce_block);
        return State {
            y: key_block,
            z,
            calls: 1,
        };
    }
    let nonce_block = block::fifteen(nonce);
    let zero = Block { a: 0, b: 0 };
    let y = engine.encipher(key_block, zero);
    let z = block::xor(key_block, nonce_block);
    State { y, z, calls: 1 }
}

// The encryption of a block, chosen by its size n: a loop over blocks then tests only that number.
pub fn image(engine: &Engine, n: usize, key: Block, block: Block) -> Block
    requires { n ≡ size_of engine.now.suite }
    ensures image { take (size_of engine.now.suite) (wide result) ≡ (cipher_of engine.now.suite).E (wide key) (take (size_of engine.now.suite) (wide block)) }
    ensures rest { Clean engine.now.suite result }
{
    if n == 16 {
        // As in `start`.
        let key_copy = Block { a: key.a, b: key.b };
        let block_copy = Block {
            a: block.a,
            b: block.b,
        };
        return engine.encipher16(key_copy, block_copy);
    }
    Block {
        a: cipher::encipher8(engine.suite, key.a, key.b, block.a),
        b: 0,
    }
}

// The key of a block of n bytes with a mark; X, the encryption of Y under it, by one call; and the Z that is kept after the block.
pub fn turn(engine: &Engine, state: State, mark: u8, n: usize) -> State
    requires { n ≡ size_of engine.now.suite }
    ensures { Holds engine.now.suite result (imaged engine.now.suite mark (two_of engine.now.suite state)) (one_more_of state.calls) }
{
    let Keyed { key, z } = block_key::block_key(engine.suite, state.z, mark);
    State {
        y: image(engine, n, key, state.y),
        z,
        calls: state.calls.wrapping_add(1),
    }
}

// Y = X XOR the block.
pub fn mix(state: State, input: Block) -> State
    ensures y { wide result.y ≡ xors (wide state.y) (wide input) }
    ensures rest { (wide result.z ≡ wide state.z) × (result.calls ≡ state.calls) }
{
    State {
        y: block::xor(state.y, input),
        ..state
    }
}
