// Blocks of sixteen bytes as two words of 64 bits.
#![tactic(auto)]

ghost use Rattle.std.specs.Prelude.{◌≡◌, [], ◌∷◌, ◌++◌, ◌⊎◌, length, take};
ghost use Rattle.block.specs.Bytes.{value, bytes, same_bytes};
ghost use Rattle.block.specs.Xors.{xors};
ghost use Rattle.block.specs.Blocks.{wide, filled};

// Bytes 0 to 7 and 8 to 15, the least first. Without a derived `==`, which may end at the first difference: `same` compares.
#[derive(Clone, Copy)]
pub struct Block {
    pub a: u64,
    pub b: u64,
}

// The XOR of two blocks.
pub fn xor(left: Block, right: Block) -> Block
    ensures { wide result ≡ xors (wide left) (wide right) }
{
    Block {
        a: left.a ^ right.a,
        b: left.b ^ right.b,
    }
}

// Whether two blocks are equal: all differences are OR-ed together and tested once, so there is no early exit.
pub fn same(left: Block, right: Block) -> bool
    ensures { result ≡ same_bytes (wide left) (wide right) }
{
    ((left.a ^ right.a) | (left.b ^ right.b)) == 0
}

// The number of these bytes.
pub fn number8(eight: [u8; 8]) -> u64
    ensures { bytes 8 result ≡ eight }
{
    u64::from_le_bytes(eight)
}

// The number in eight bytes.
fn load8(eight: &[u8]) -> u64
    requires { length eight.now ≡ 8 }
    ensures { bytes 8 result ≡ eight.now }
{
    number8(eight.try_into().unwrap())
}

// The eight bytes of a number.
pub fn bytes8(number: u64) -> [u8; 8]
    ensures { result ≡ bytes 8 number }
{
    number.to_le_bytes()
}

// The number, into eight bytes.
fn put8(number: u64, out: &mut [u8])
    requires { length out.old ≡ 8 }
    ensures { out.new ≡ bytes 8 number }
{
    out.copy_from_slice(&bytes8(number));
}

// The block of sixteen bytes, read by whole words.
pub fn sixteen(block: &[u8]) -> Block
    requires { length block.now ≡ 16 }
    ensures { wide result ≡ block.now }
{
    let lo = load8(&block[0..8]);
    let hi = load8(&block[8..16]);
    Block { a: lo, b: hi }
}

// A full block of 16 or 8 bytes, read by whole words; eight bytes are padded with zeros.
pub fn whole(block: &[u8]) -> Block
    requires { (length block.now ≡ 16) ⊎ (length block.now ≡ 8) }
    ensures { wide result ≡ filled block.now }
{
    if block.len() == 16 {
        return sixteen(block);
    }
    let lo = load8(block);
    Block { a: lo, b: 0 }
}

// Writes the first 16 or 8 bytes of a block, by whole words.
pub fn put_whole(block: Block, out: &mut [u8])
    requires { (length out.old ≡ 16) ⊎ (length out.old ≡ 8) }
    ensures { out.new ≡ take (length out.old) (wide block) }
{
    if out.len() == 16 {
        put8(block.a, &mut out[0..8]);
        put8(block.b, &mut out[8..16]);
        return;
    }
    put8(block.a, out);
}

// The bytes of a block. By name and not by `From`: which way the bytes go is plainer, and `Outcomes` states it of each name.
pub fn bytes_of(block: Block) -> [u8; 16]
    ensures { result ≡ wide block }
{
    let mut sixteen = [0u8; 16];
    put_whole(block, &mut sixteen[0..16]);
    sixteen
}

// The block of these bytes.
pub fn block_of(sixteen: [u8; 16]) -> Block
    ensures { wide result ≡ sixteen }
{
    self::sixteen(&sixteen)
}

// The block of fifteen bytes, padded with a zero. The last eight are read as one number and shifted by one byte, which drops the byte that the first read covers.
pub fn fifteen(front: &[u8]) -> Block
    requires { length front.now ≡ 15 }
    ensures { wide result ≡ front.now ++ (0 ∷ []) }
{
    let lo = load8(&front[0..8]);
    let hi = load8(&front[7..15]);
    Block { a: lo, b: hi >> 8 }
}
