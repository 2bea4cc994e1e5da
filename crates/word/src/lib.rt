// Words of 16 and 32 bits: rotation, addition, and reading from and writing to bytes.
#![tactic(auto)]

ghost use Rattle.std.specs.Prelude.{◌≡◌, ◌≤◌, ℕ, List, ◌+◌, ◌*◌, ◌/◌, ◌^◌, ◌<◌, [], ◌∷◌, ◌++◌, length};
ghost use Rattle.block.specs.Words.{rotl, add, xor};
ghost use Rattle.block.specs.Bytes.{value, bytes, word};

use block::Block;

// A word of a cipher whose blocks are four words.
pub trait Word: Copy {
    // The bytes of four words.
    type Four;

    // How many bits it has, its number, and the bytes of four of them.
    ghost width: { ℕ };

    ghost number: { Self → ℕ };

    ghost four: { Self.Four → List ℕ };

    // The word of a small number.
    fn small(n: u32) -> Self
        requires { n < 2 ^ 16 }
        ensures { number result ≡ n };

    // Word i of the bytes.
    fn nth(from: &[u8], i: usize) -> Self
        requires { width / 8 * i + width / 8 ≤ length from.now }
        ensures { number result ≡ word (width / 8) from.now (width / 8 * i) };

    fn rotl(self, by: u32) -> Self
        requires { (0 < by) × (by < width) }
        ensures { number result ≡ rotl width by (number self) };

    fn plus(self, right: Self) -> Self
        ensures { number result ≡ add width (number self) (number right) };

    fn xor(self, right: Self) -> Self
        ensures { number result ≡ xor (number self) (number right) };

    fn store4(word0: Self, word1: Self, word2: Self, word3: Self) -> Self::Four
        ensures { four result ≡ bytes (width / 8) (number word0) ++ bytes (width / 8) (number word1) ++ bytes (width / 8) (number word2) ++ bytes (width / 8) (number word3) };
}

impl Word for u16 {
    type Four = [u8; 8];

    ghost width = { 16 };

    ghost number = { λ x. x };

    ghost four = { λ x. x };

    fn small(n: u32) -> u16 {
        n as u16
    }

    fn nth(from: &[u8], i: usize) -> u16 {
        le16(from[2 * i], from[2 * i + 1])
    }

    fn rotl(self, by: u32) -> u16 {
        (self << by) + (self >> (16 - by))
    }

    fn plus(self, right: u16) -> u16 {
        u16::wrapping_add(self, right)
    }

    fn xor(self, right: u16) -> u16 {
        self ^ right
    }

    fn store4(word0: u16, word1: u16, word2: u16, word3: u16) -> [u8; 8] {
        block::bytes8(join32(join16(word0, word1), join16(word2, word3)))
    }
}

impl Word for u32 {
    type Four = [u8; 16];

    ghost width = { 32 };

    ghost number = { λ x. x };

    ghost four = { λ x. x };

    fn small(n: u32) -> u32 {
        n
    }

    fn nth(from: &[u8], i: usize) -> u32 {
        let at = 4 * i;
        le32(from[at], from[at + 1], from[at + 2], from[at + 3])
    }

    fn rotl(self, by: u32) -> u32 {
        (self << by) + (self >> (32 - by))
    }

    fn plus(self, right: u32) -> u32 {
        u32::wrapping_add(self, right)
    }

    fn xor(self, right: u32) -> u32 {
        self ^ right
    }

    fn store4(word0: u32, word1: u32, word2: u32, word3: u32) -> [u8; 16] {
        block::bytes_of(Block {
            a: join32(word0, word1),
            b: join32(word2, word3),
        })
    }
}

pub fn le16(byte0: u8, byte1: u8) -> u16
    ensures { result ≡ value (byte0 ∷ byte1 ∷ []) }
{
    u16::from_le_bytes([byte0, byte1])
}

pub fn le32(byte0: u8, byte1: u8, byte2: u8, byte3: u8) -> u32
    ensures { result ≡ value (byte0 ∷ byte1 ∷ byte2 ∷ byte3 ∷ []) }
{
    u32::from_le_bytes([byte0, byte1, byte2, byte3])
}

// One number in the low half, the other in the high half.
fn join16(low: u16, high: u16) -> u32
    ensures { result ≡ low + 256 ^ 2 * high }
{
    low as u32 + high as u32 * 0x1_0000
}

fn join32(low: u32, high: u32) -> u64
    ensures { result ≡ low + 256 ^ 4 * high }
{
    low as u64 + high as u64 * 0x1_0000_0000
}

// Two words, as the bytes of one number.
pub fn store2_32(low: u32, high: u32) -> [u8; 8]
    ensures { result ≡ bytes 4 low ++ bytes 4 high }
{
    block::bytes8(join32(low, high))
}
