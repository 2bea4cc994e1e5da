// AES-128 by FIPS 197: the engine by columns. Its only constant is the four tables, which each step borrows.
#![tactic(auto)]

ghost use Rattle.std.specs.Prelude.{◌≡◌, [], ◌∷◌, ◌<◌};
ghost use Rattle.block.specs.Bytes.{bytes};
ghost use Rattle.aes_spec.specs.Sbox.{sub_byte};
ghost use Rattle.aes_spec.specs.Cipher.{sub_bytes, shift_rows, mix_columns, cipher};
ghost use Rattle.aes_plain.specs.Columns.{bytes_of, row, mix_column};
ghost use Rattle.aes_tables.specs.Tables.{share, IsTables};

use aes_plain::{Columns, SubBytes, add_round_key, next_key, shift_rows};
use word::Word;

mod rows;

// Four rows of 256 words: one for each row of a column.
pub type Tables = [[u32; 256]; 4];

// The tables, borrowed.
#[derive(Clone, Copy)]
struct Shares<'a> {
    tables: &'a Tables,
    ghost rule: { IsTables tables.now },
}

// The S-box of the byte in row k of a column. Table k + 2 has the multiple 01 in row k, so the byte needs no shift.
impl SubBytes for Shares<'_> {
    fn sub_byte(self, x: u32, k: u32) -> u8 {
        ((self.entry((k + 2) % 4, x, k) >> (8 * k)) % 256) as u8
    }
}

impl Shares<'_> {
    // Entry of table p at the byte in row k of a column: what the S-box of that byte contributes from row p to the mixed column.
    fn entry(self, p: u32, x: u32, k: u32) -> u32
        requires { (p < 4) × (k < 4) }
        ensures { bytes 4 result ≡ share p (sub_byte (row k x)) }
    {
        self.tables[p as usize][((x >> (8 * k)) % 256) as usize]
    }

    // SubBytes, ShiftRows and MixColumns of one column: row r comes from the r-th of the four columns.
    fn mixed(self, a: u32, b: u32, c: u32, d: u32) -> u32
        ensures { bytes 4 result ≡ mix_column (sub_byte (row 0 a) ∷ sub_byte (row 1 b) ∷ sub_byte (row 2 c) ∷ sub_byte (row 3 d) ∷ []) }
    {
        self.entry(0, a, 0) ^ self.entry(1, b, 1) ^ self.entry(2, c, 2) ^ self.entry(3, d, 3)
    }

    // SubBytes, ShiftRows and MixColumns.
    fn mix_columns(self, s: Columns) -> Columns
        ensures { bytes_of result ≡ mix_columns (shift_rows (sub_bytes (bytes_of s))) }
    {
        Columns {
            a: self.mixed(s.a, s.b, s.c, s.d),
            b: self.mixed(s.b, s.c, s.d, s.a),
            c: self.mixed(s.c, s.d, s.a, s.b),
            d: self.mixed(s.d, s.a, s.b, s.c),
        }
    }
}

// The tables, constructed once and passed by reference.
pub fn tables() -> Tables
    ensures { IsTables result }
{
    rows::TABLES
}

// The encryption of a block, with borrowed tables: nine rounds that mix columns, each with the next round key, and the last.
pub fn encrypt_with(tables: &Tables, key: [u8; 16], block: [u8; 16]) -> [u8; 16]
    requires { IsTables tables.now }
    ensures { result ≡ cipher key block }
{
    let shares = Shares { tables };
    let mut k = aes_plain::load(key);
    let mut s = add_round_key(aes_plain::load(block), k);
    let mut rc: u32 = 1;
    for i in 0..9usize {
        k = next_key(shares, k, rc);
        s = add_round_key(shares.mix_columns(s), k);
        rc = aes_plain::next_rcon(rc);
    }
    s = add_round_key(shift_rows(shares, s), next_key(shares, k, rc));
    u32::store4(s.a, s.b, s.c, s.d)
}

// The encryption of a block.
pub fn encrypt(key: [u8; 16], block: [u8; 16]) -> [u8; 16]
    ensures { result ≡ cipher key block }
{
    let t = tables();
    encrypt_with(&t, key, block)
}
