// Padding of a short block.
ghost use Rattle.std.specs.Prelude.{◌≡◌, ◌<◌, take};
ghost use Rattle.block.specs.Bytes.{bytes};
ghost use Rattle.block.specs.Blocks.{wide};
ghost use Rattle.mode.specs.Words.{pad};

use block::Block;

// The first len bytes of a number, then 01, then zeros, up to 8 bytes.
fn padded8(number: u64, len: u32) -> u64
    requires { len < 8 }
    ensures { bytes 8 result ≡ pad 8 (take len (bytes 8 number)) }
{
    let marker = 1u64 << (8 * len);
    number % marker + marker
}

// The first len bytes of a block, then 01, then zeros, up to 16 bytes: the first n bytes are the block padded to n.
pub(crate) fn padded(block: Block, len: usize) -> Block
    requires { len < 16 }
    ensures { wide result ≡ pad 16 (take len (wide block)) }
{
    if len < 8 {
        return Block {
            a: padded8(block.a, len as u32),
            b: 0,
        };
    }
    Block {
        a: block.a,
        b: padded8(block.b, (len - 8) as u32),
    }
}
