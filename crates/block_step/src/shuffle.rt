// The shuffle of a block, on its words.
ghost use Rattle.std.specs.Prelude.{◌≡◌, take};
ghost use Rattle.block.specs.Bytes.{bytes};
ghost use Rattle.block.specs.Blocks.{wide};
ghost use Rattle.cipher.specs.Cipher.{size_of};
ghost use Rattle.mode.specs.Words.{shuffle};
ghost use Rattle.block_state.specs.Two.{Clean};

use block::Block;
use word::Word;

// On four words of 32 bits.
fn shuffled16(x: Block) -> Block
    ensures { wide result ≡ shuffle 16 (wide x) }
{
    let rotated = ((x.b % 0x1_0000_0000) as u32).rotl(31) as u64;
    Block {
        a: x.b / 0x1_0000_0000 + 0x1_0000_0000 * rotated,
        b: x.a,
    }
}

// On four words of 16 bits. The rotated word is added last: in another order the compiler emits a double shift, which some processors execute slowly.
fn shuffled8(x: u64) -> u64
    ensures { bytes 8 result ≡ shuffle 8 (bytes 8 x) }
{
    let high = x / 0x1_0000_0000;
    let rotated = ((high % 0x1_0000) as u16).rotl(15) as u64;
    high / 0x1_0000 + 0x1_0000_0000 * (x % 0x1_0000_0000) + 0x1_0000 * rotated
}

// Of a block of the suite's size n, padded with zeros.
pub(crate) fn shuffled(suite: u8, x: Block, n: usize) -> Block
    requires { n ≡ size_of suite }
    ensures is { take (size_of suite) (wide result) ≡ shuffle (size_of suite) (take (size_of suite) (wide x)) }
    ensures clean { Clean suite result }
{
    if n == 16 {
        return shuffled16(x);
    }
    Block {
        a: shuffled8(x.a),
        b: 0,
    }
}
