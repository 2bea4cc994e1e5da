// A Bloom filter before 29: each row sets two bits of one of 128 words. A row whose bits are not both set clashes with no earlier row.
ghost use Rattle.std.specs.Prelude.{◌≡◌, ◌<◌};
ghost use Rattle.shift_check.specs.Marks.{folded, mixed, mark_of, word_of, bits_of, has, with};

use crate::table::Table;

// The XOR of a nonce's two words. The second is rotated, so that counters in both words do not cancel.
#[tactic(auto, unfolding(crate::specs::Marks::folded))]
fn fold(low: u64, high: u64) -> u64
    ensures { result ≡ folded low high }
{
    low ^ (high << 35) ^ (high >> 29)
}

// Suite, key number and that word, mixed by halves of 32 bits. The three multipliers are odd constants below 2^31, so the sum stays
// below 2^64. They decide only how often two different rows share their bits and are compared for nothing: no contract of the check
// names them, so other constants would change its time and not its answer.
#[tactic(auto, unfolding(crate::specs::Marks::mixed))]
fn mix(suite: u8, key: u8, nonce: u64) -> u64
    ensures { result ≡ mixed suite key nonce }
{
    let suite_and_key = suite as u64 * 256 + key as u64;
    (nonce % 0x1_0000_0000) * 0x71E5_4147
        + (nonce >> 32) * 0x7764_E943
        + suite_and_key * 0x4045_02D3
}

// The hash of a row.
pub(crate) fn mark(table: &Table, index: usize) -> u64
    requires { index < table.now.rows }
    ensures { result ≡ mark_of table.now.size table.now.file.now index }
{
    let row = table.row(index);
    let nonce = table.nonce(index);
    mix(row.suite, row.key, fold(nonce.a, nonce.b))
}

// The index of the word that a hash selects.
#[tactic(auto, unfolding(crate::specs::Marks::word_of))]
fn word_of(hash: u64) -> usize
    ensures { (result ≡ word_of hash) × (result < 128) }
{
    ((hash >> 25) % 128) as usize
}

// The two bits that it selects in that word.
fn bits_of(hash: u64) -> u64
    ensures { result ≡ bits_of hash }
{
    (1u64 << ((hash >> 19) % 64)) | (1u64 << ((hash >> 32) % 64))
}

// Whether both bits of the hash are set.
#[tactic(auto, unfolding(crate::specs::Marks::has))]
pub(crate) fn has(seen: &[u64; 128], hash: u64) -> bool
    ensures { result ≡ has seen.now hash }
{
    let at = word_of(hash);
    let word = seen[at];
    word | bits_of(hash) == word
}

// Sets both bits of the hash.
#[tactic(auto, unfolding(crate::specs::Marks::with))]
pub(crate) fn put(seen: &mut [u64; 128], hash: u64)
    ensures { seen.new ≡ with seen.old hash }
{
    let at = word_of(hash);
    let word = seen[at];
    seen[at] = word | bits_of(hash);
}
