// The next block key: a mark into byte 15 of Z, and the doubling of its low bits, 64 in version 1 and 120 in version 2.
#![tactic(auto)]

ghost use Rattle.std.specs.Prelude.{◌≡◌};
ghost use Rattle.block.specs.Blocks.{wide};
ghost use Rattle.cipher.specs.Cipher.{one, two, version_of};
ghost use Rattle.mode.specs.Words.{double};
ghost use Rattle.mode.specs.Keys.{marked, doubled, next_key};
ghost use Rattle.mode.specs.Walk.{block_key, kept_behind};

use block::Block;

// Doubling of a 64-bit number: the dropped bit is 1 or 0.
fn doubling(number: u64) -> u64
    ensures { result ≡ double number }
{
    (number << 1) ^ ((number >> 63) * 0x1b)
}

// Doubling of the low 120 bits across the two halves: the low 56 bits of the high half are doubled and take in the carry of the low half; the top byte is kept.
fn doubling120(z: Block) -> Block
    ensures { wide result ≡ doubled two (wide z) }
{
    let below = z.b % 0x80_0000_0000_0000;
    let above = z.b / 0x80_0000_0000_0000;
    let bit = above % 2;
    let top = (above - bit) * 0x80_0000_0000_0000;
    let once = below + (z.a >> 63);
    let high = once + (below + top);
    Block {
        a: (z.a << 1) ^ (bit * 0x245),
        b: high,
    }
}

// Z with the mark XORed into byte 15, the highest of the high half.
fn with_mark(z: Block, mark: u8) -> Block
    ensures { wide result ≡ marked mark (wide z) }
{
    Block {
        a: z.a,
        b: z.b ^ ((mark as u64) * 0x100_0000_0000_0000),
    }
}

// The mark, then the doubling of version 1.
fn next_key_one(z: Block, mark: u8) -> Block
    ensures { wide result ≡ next_key one mark (wide z) }
{
    let marked = with_mark(z, mark);
    Block {
        a: doubling(marked.a),
        b: marked.b,
    }
}

// The mark, then the doubling of version 2.
fn next_key_two(z: Block, mark: u8) -> Block
    ensures { wide result ≡ next_key two mark (wide z) }
{
    let marked = with_mark(z, mark);
    doubling120(marked)
}

// The mark, then the doubling of the suite's version.
pub fn next_key(suite: u8, z: Block, mark: u8) -> Block
    ensures { wide result ≡ next_key (version_of suite) mark (wide z) }
{
    if cipher::is_second(suite) {
        return next_key_two(z, mark);
    }
    next_key_one(z, mark)
}

// A block's key, and the Z that is kept after the block.
#[derive(Clone, Copy)]
pub struct Keyed {
    pub key: Block,
    pub z: Block,
}

// The key of a block with a mark, and the Z that is kept after it: version 2 applies the mark only then. The version is tested once.
pub fn block_key(suite: u8, z: Block, mark: u8) -> Keyed
    ensures key { wide result.key ≡ block_key (version_of suite) mark (wide z) }
    ensures z { wide result.z ≡ kept_behind (version_of suite) mark (wide result.key) }
{
    if cipher::is_second(suite) {
        let key = next_key_two(z, 0);
        let kept = with_mark(key, mark);
        return Keyed { key, z: kept };
    }
    let key = next_key_one(z, mark);
    Keyed { key, z: key }
}
