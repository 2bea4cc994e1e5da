// The block ciphers of the six suites under one contract.
#![tactic(auto)]

ghost use Rattle.std.specs.Prelude.{◌≡◌, true, ◌++◌, ◌-◌, ◌≤◌, ◌<◌, take, drop, replicate};
ghost use Rattle.block.specs.Bytes.{bytes};
ghost use Rattle.block.specs.Blocks.{wide};
ghost use Rattle.aes_spec.specs.Cipher.{cipher};
ghost use Rattle.cham_spec.specs.Cham.{cham};
ghost use Rattle.speck.specs.Speck.{speck};
ghost use Rattle.cipher.specs.Cipher.{needs_tables, Full, TablesFit, is_suite, IsSuite, is_two, size_of, nonce_of, version_of, cipher_of, seals};

use block::Block;

// The most bytes of associated data, and the most of a message.
pub const LIMIT: usize = 65536;

// The bytes of a key, in every suite. Block, nonce and tag depend on the suite: `size_of` and `nonce_size`.
pub const KEY_LEN: usize = 16;

// Suite 4, over CHAM-64/128. It is retired (document 02, W7): it opens, and it does not seal.
pub const RETIRED: u8 = 4;

// Whether the suite exists. A suite is its byte of the file format and of the C interface, not an enum: every byte may come.
pub fn is_suite(suite: u8) -> bool
    ensures { result ≡ is_suite suite }
{
    1 <= suite && suite <= 6
}

// Whether the suite seals.
pub fn seals(suite: u8) -> bool
    ensures { result ≡ seals suite }
{
    is_suite(suite) && suite != RETIRED
}

// The suite's block size.
pub fn size_of(suite: u8) -> usize
    ensures is { result ≡ size_of suite }
    ensures bounds { (0 < result) × (result ≤ 16) }
{
    if suite <= 2 {
        return 16;
    }
    if suite == 5 { 16 } else { 8 }
}

// The suite's nonce length.
pub fn nonce_size(suite: u8) -> usize
    ensures { result ≡ nonce_of suite }
{
    if size_of(suite) == 16 { 16 } else { 15 }
}

// Whether the suite uses COMET version 2.
pub fn is_second(suite: u8) -> bool
    ensures { result ≡ is_two (version_of suite) }
{
    4 < suite
}

// The lookup tables of AES, copied once a message. Functions take them as a slice: of one element if the suite needs them, else empty.
pub type AesTables = aes_tables::Tables;

// Whether the suite's engine reads the tables of AES.
pub fn needs_tables(suite: u8) -> bool
    ensures { result ≡ needs_tables suite }
{
    suite <= 1 || suite == 5
}

pub fn tables(suite: u8) -> [AesTables; 1]
    requires { needs_tables suite ≡ true }
    ensures { TablesFit suite result }
{
    [aes_tables::tables()]
}

fn by_aes(tables: &[AesTables], key: Block, block: Block) -> Block
    requires { Full tables.now }
    ensures { wide result ≡ cipher (wide key) (wide block) }
{
    let key_bytes = block::bytes_of(key);
    let block_bytes = block::bytes_of(block);
    block::block_of(aes_tables::encrypt_with(&tables[0], key_bytes, block_bytes))
}

fn by_cham128(key: Block, block: Block) -> Block
    ensures { wide result ≡ cham 32 (wide key) (wide block) }
{
    let key_bytes = block::bytes_of(key);
    let block_bytes = block::bytes_of(block);
    block::block_of(cham::encrypt128(key_bytes, block_bytes))
}

fn by_speck(key0: u64, key1: u64, block: u64) -> u64
    ensures { bytes 8 result ≡ speck (bytes 8 key0 ++ bytes 8 key1) (bytes 8 block) }
{
    let key_bytes = block::bytes_of(Block { a: key0, b: key1 });
    let block_bytes = block::bytes8(block);
    block::number8(speck::encrypt(key_bytes, block_bytes))
}

fn by_cham64(key0: u64, key1: u64, block: u64) -> u64
    ensures { bytes 8 result ≡ cham 16 (bytes 8 key0 ++ bytes 8 key1) (bytes 8 block) }
{
    let key_bytes = block::bytes_of(Block { a: key0, b: key1 });
    let block_bytes = block::bytes8(block);
    block::number8(cham::encrypt64(key_bytes, block_bytes))
}

// The encryption of a block of 16 bytes. It takes an engine by its parts, which pass in registers, and has two callers, so that it stays
// a function of its own: with the engine as one value AES and CHAM spill more, 19 to 31 instructions a block.
fn encipher16(tables: &[AesTables], suite: u8, key: Block, block: Block) -> Block
    requires { TablesFit suite tables.now × (size_of suite ≡ 16) }
    ensures { wide result ≡ (cipher_of suite).E (wide key) (wide block) }
{
    if needs_tables(suite) {
        return by_aes(tables, key, block);
    }
    by_cham128(key, block)
}

// The encryption of a block of 8 bytes, as a number: numbers pass in registers. The key is given by its two halves.
pub fn encipher8(suite: u8, key0: u64, key1: u64, block: u64) -> u64
    requires { IsSuite suite × (size_of suite ≡ 8) }
    ensures { bytes 8 result ≡ (cipher_of suite).E (bytes 8 key0 ++ bytes 8 key1) (bytes 8 block) }
{
    if suite == RETIRED {
        return by_cham64(key0, key1, block);
    }
    by_speck(key0, key1, block)
}

// A suite that exists, with the tables that its cipher reads: built once a call, of what the entry point has checked.
#[derive(Clone, Copy)]
pub struct Engine<'a> {
    pub suite: u8,
    pub tables: &'a [AesTables],
    pub ghost known: { IsSuite suite },
    pub ghost fitted: { TablesFit suite tables.now },
}

impl Engine<'_> {
    // The block size of its suite.
    pub fn size(&self) -> usize
        ensures is { result ≡ size_of self.now.suite }
        ensures bounds { (0 < result) × (result ≤ 16) }
    {
        size_of(self.suite)
    }

    // The encryption of a block of 16 bytes.
    pub fn encipher16(&self, key: Block, block: Block) -> Block
        requires { size_of self.now.suite ≡ 16 }
        ensures { wide result ≡ (cipher_of self.now.suite).E (wide key) (wide block) }
    {
        encipher16(self.tables, self.suite, key, block)
    }

    // The encryption of the block's first bytes, as many as the suite's block has, and zeros after it. It calls the engine of suite 4
    // directly: an engine with two callers is not inlined, so `encipher8` saves no registers for it on the path to Speck.
    pub fn encipher(&self, key: Block, block: Block) -> Block
        ensures image { take (size_of self.now.suite) (wide result) ≡ (cipher_of self.now.suite).E (wide key) (take (size_of self.now.suite) (wide block)) }
        ensures rest { drop (size_of self.now.suite) (wide result) ≡ replicate (16 - size_of self.now.suite) 0 }
    {
        if self.size() == 16 {
            return encipher16(self.tables, self.suite, key, block);
        }
        if self.suite != RETIRED {
            return Block {
                a: encipher8(self.suite, key.a, key.b, block.a),
                b: 0,
            };
        }
        Block {
            a: by_cham64(key.a, key.b, block.a),
            b: 0,
        }
    }
}
