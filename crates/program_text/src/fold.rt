// One number for a string of bytes.
ghost use Rattle.std.specs.Prelude.{◌≡◌, ◌<◌};
ghost use Rattle.program_text.specs.Fold.{fold_of, fold_from, next};

// The fold of the bytes so far, modulo the largest prime below 2^32.
#[derive(Clone, Copy)]
pub struct Fold {
    pub value: u64,
    ghost below: { value < 4294967291 },
}

impl Fold {
    // The fold of no bytes.
    pub fn new() -> Fold
        ensures { result.value ≡ 0 }
    {
        Fold { value: 0 }
    }

    // The fold with a byte after it.
    pub fn byte(self, byte: u8) -> Fold
        ensures { result.value ≡ next self.value byte }
    {
        Fold {
            value: (self.value * 257 + byte as u64 + 1) % 4294967291,
        }
    }

    // The fold with the bytes after it.
    pub fn bytes(self, bytes: &[u8]) -> Fold
        ensures { result.value ≡ fold_from self.value bytes.now }
    {
        let mut fold = self;
        for byte in bytes {
            fold = fold.byte(*byte);
        }
        fold
    }
}

// One number for all the bytes, modulo the largest prime below 2^32.
pub fn fold_of(bytes: &[u8]) -> u64
    ensures { result ≡ fold_of bytes.now }
{
    Fold::new().bytes(bytes).value
}
