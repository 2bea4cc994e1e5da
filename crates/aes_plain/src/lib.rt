// AES-128 by FIPS 197: the plain engine. Its only table is the S-box, which each step borrows.
#![tactic(auto)]

ghost use Rattle.std.specs.Prelude.{◌≡◌, [], ◌∷◌, map, ◌<◌, cond};
ghost use Rattle.block.specs.Words.{xor};
ghost use Rattle.block.specs.Bytes.{bytes};
ghost use Rattle.aes_spec.specs.Field.{xtime};
ghost use Rattle.aes_spec.specs.Sbox.{sub_byte, IsSbox};
ghost use Rattle.aes_spec.specs.Cipher.{sub_bytes, shift_rows, mix_columns, add_round_key, rot_word, cipher};
ghost use Rattle.aes_plain.specs.Columns.{bytes_of, row, mix_column, Follows, Expands};

use block::block_of;
use word::{Word, le32};

mod sbox;

// The four columns of the state or of a round key; row 0 is the low byte.
#[derive(Clone, Copy)]
pub struct Columns {
    pub a: u32,
    pub b: u32,
    pub c: u32,
    pub d: u32,
}

// Where an engine reads the S-box.
pub trait SubBytes: Copy {
    // The S-box at the byte in row k of a column.
    fn sub_byte(self, x: u32, k: u32) -> u8
        requires { k < 4 }
        ensures { result ≡ sub_byte (row k x) };
}

// The S-box, borrowed.
#[derive(Clone, Copy)]
struct Table<'a> {
    bytes: &'a [u8; 256],
    ghost rule: { IsSbox bytes.now },
}

impl SubBytes for Table<'_> {
    fn sub_byte(self, x: u32, k: u32) -> u8 {
        self.bytes[((x >> (8 * k)) % 256) as usize]
    }
}

// SubBytes and ShiftRows of one column: row r comes from the r-th of the four columns.
fn shifted<S: SubBytes>(sbox: S, a: u32, b: u32, c: u32, d: u32) -> u32
    ensures { bytes 4 result ≡ sub_byte (row 0 a) ∷ sub_byte (row 1 b) ∷ sub_byte (row 2 c) ∷ sub_byte (row 3 d) ∷ [] }
{
    le32(
        sbox.sub_byte(a, 0),
        sbox.sub_byte(b, 1),
        sbox.sub_byte(c, 2),
        sbox.sub_byte(d, 3),
    )
}

// SubBytes and ShiftRows.
pub fn shift_rows<S: SubBytes>(sbox: S, s: Columns) -> Columns
    ensures { bytes_of result ≡ shift_rows (sub_bytes (bytes_of s)) }
{
    Columns {
        a: shifted(sbox, s.a, s.b, s.c, s.d),
        b: shifted(sbox, s.b, s.c, s.d, s.a),
        c: shifted(sbox, s.c, s.d, s.a, s.b),
        d: shifted(sbox, s.d, s.a, s.b, s.c),
    }
}

// xtime of each byte: the seven low bits move up, and 0x1b comes in where the eighth drops out.
fn double(x: u32) -> u32
    ensures { bytes 4 result ≡ map xtime (bytes 4 x) }
{
    ((x & 0x7f7f7f7f) << 1) ^ (((x >> 7) & 0x01010101) * 0x1b)
}

// The rows move up by one, row 0 to the end.
pub fn rot_word(column: u32) -> u32
    ensures { bytes 4 result ≡ rot_word (bytes 4 column) }
{
    (column >> 8) + (column << 24)
}

// MixColumns of one column: 02 a + 03 b + c + d is 02 (a + b) + b + (c + d), and c + d is two rows on from a + b.
fn mix_column(x: u32) -> u32
    ensures { bytes 4 result ≡ mix_column (bytes 4 x) }
{
    let y = rot_word(x);
    let w = x ^ y;
    double(w) ^ y ^ rot_word(rot_word(w))
}

// MixColumns.
fn mix_columns(s: Columns) -> Columns
    ensures { bytes_of result ≡ mix_columns (bytes_of s) }
{
    Columns {
        a: mix_column(s.a),
        b: mix_column(s.b),
        c: mix_column(s.c),
        d: mix_column(s.d),
    }
}

// AddRoundKey.
pub fn add_round_key(state: Columns, key: Columns) -> Columns
    ensures { bytes_of result ≡ add_round_key (bytes_of state) (bytes_of key) }
{
    Columns {
        a: state.a ^ key.a,
        b: state.b ^ key.b,
        c: state.c ^ key.c,
        d: state.d ^ key.d,
    }
}

// A round; the last one does not mix columns. Whether it mixes is data, so that ten rounds are one loop.
fn round<S: SubBytes>(sbox: S, s: Columns, k: Columns, mixing: bool) -> Columns
    ensures { bytes_of result ≡ add_round_key (cond mixing (mix_columns (shift_rows (sub_bytes (bytes_of s)))) (shift_rows (sub_bytes (bytes_of s)))) (bytes_of k) }
{
    let u = shift_rows(sbox, s);
    if mixing {
        return add_round_key(mix_columns(u), k);
    }
    add_round_key(u, k)
}

// The columns of the next round key: each is the XOR of the old column and the new column before it; the given column precedes the first.
pub fn chained(key: Columns, before: u32) -> Columns
    ensures { (result.a ≡ xor key.a before) × (result.b ≡ xor key.b result.a) × (result.c ≡ xor key.c result.b) × (result.d ≡ xor key.d result.c) }
{
    let a = key.a ^ before;
    let b = key.b ^ a;
    let c = key.c ^ b;
    let d = key.d ^ c;
    Columns { a, b, c, d }
}

// The round key after k; rc is its Rcon.
pub fn next_key<S: SubBytes>(sbox: S, k: Columns, rc: u32) -> Columns
    ensures columns { Expands k (bytes 4 rc) result }
    ensures follows { Follows (bytes_of k) (bytes 4 rc) (bytes_of result) }
{
    let w = rot_word(k.d);
    chained(k, shifted(sbox, w, w, w, w) ^ rc)
}

// The Rcon after an Rcon, as a number: 0x11b is 0x1b and the bit that drops out.
pub fn next_rcon(rcon: u32) -> u32
    requires { rcon < 256 }
    ensures { result ≡ xtime rcon }
{
    (rcon << 1) ^ ((rcon >> 7) * 0x11b)
}

// Sixteen bytes as four columns.
pub fn load(block: [u8; 16]) -> Columns
    ensures { bytes_of result ≡ block }
{
    let x = block_of(block);
    Columns {
        a: (x.a % 0x100000000) as u32,
        b: (x.a >> 32) as u32,
        c: (x.b % 0x100000000) as u32,
        d: (x.b >> 32) as u32,
    }
}

// The S-box, constructed once and passed by reference.
pub fn sbox_table() -> [u8; 256]
    ensures { IsSbox result }
{
    sbox::SBOX
}

// The encryption of a block, with a borrowed S-box: ten rounds, each with the next round key.
pub fn encrypt_with(table: &[u8; 256], key: [u8; 16], block: [u8; 16]) -> [u8; 16]
    requires { IsSbox table.now }
    ensures { result ≡ cipher key block }
{
    let sbox = Table { bytes: table };
    let mut k = load(key);
    let mut s = add_round_key(load(block), k);
    let mut rc: u32 = 1;
    for i in 0..10usize {
        k = next_key(sbox, k, rc);
        s = round(sbox, s, k, i < 9);
        rc = next_rcon(rc);
    }
    u32::store4(s.a, s.b, s.c, s.d)
}

// The encryption of a block.
pub fn encrypt(key: [u8; 16], block: [u8; 16]) -> [u8; 16]
    ensures { result ≡ cipher key block }
{
    let t = sbox_table();
    encrypt_with(&t, key, block)
}
