// Runs of bytes: copying, wiping, comparison with zeros, and blocks of fewer than sixteen bytes.
#![tactic(auto)]

ghost use Rattle.std.specs.Prelude.{◌≡◌, ◌≤◌, length, take, replicate};
ghost use Rattle.block.specs.Bytes.{same_bytes};
ghost use Rattle.block.specs.Blocks.{wide, filled};

use block::{Block, block_of, bytes_of, fifteen, put_whole, whole};

// Copies all of `from` into an output of the same length. Not by `copy_from_slice`, which calls `memmove`: no object of ours needs that.
pub fn copy(from: &[u8], to: &mut [u8])
    requires { length to.old ≡ length from.now }
    ensures { to.new ≡ from.now }
{
    for (i, byte) in from.iter().enumerate() {
        to[i] = *byte;
    }
}

// Whether every byte is 0.
pub fn all_zero(bytes: &[u8]) -> bool
    ensures { result ≡ same_bytes bytes.now (replicate (length bytes.now) 0) }
{
    bytes.iter().all(|byte| *byte == 0)
}

// Sets every byte to 0.
pub fn wipe(out: &mut [u8])
    ensures { out.new ≡ replicate (length out.old) 0 }
{
    out.fill(0);
}

// At most sixteen bytes, padded with zeros, as an array.
pub fn filled_bytes(front: &[u8]) -> [u8; 16]
    requires { length front.now ≤ 16 }
    ensures { result ≡ filled front.now }
{
    let mut sixteen = [0u8; 16];
    sixteen[..front.len()].copy_from_slice(front);
    sixteen
}

// At most sixteen bytes, padded with zeros, as a block.
pub fn filled(front: &[u8]) -> Block
    requires { length front.now ≤ 16 }
    ensures { wide result ≡ filled front.now }
{
    if front.len() == 16 {
        return whole(front);
    }
    if front.len() == 8 {
        return whole(front);
    }
    if front.len() == 15 {
        return fifteen(front);
    }
    block_of(filled_bytes(front))
}

// Writes the first bytes of an array of sixteen, as many as the output has.
fn put_bytes(sixteen: [u8; 16], out: &mut [u8])
    requires { length out.old ≤ 16 }
    ensures { out.new ≡ take (length out.old) sixteen }
{
    out.copy_from_slice(&sixteen[..out.len()]);
}

// Writes the first bytes of a block, as many as the output has.
pub fn put(block: Block, out: &mut [u8])
    requires { length out.old ≤ 16 }
    ensures { out.new ≡ take (length out.old) (wide block) }
{
    if out.len() == 16 {
        put_whole(block, out);
        return;
    }
    if out.len() == 8 {
        put_whole(block, out);
        return;
    }
    put_bytes(bytes_of(block), out);
}
