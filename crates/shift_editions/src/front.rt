// An output that is written from the front.
ghost use Rattle.std.specs.Prelude.{◌+◌, ◌≤◌, length, replicate};

use byte_runs::copy;

// An output, and how many bytes of it are written. Each call appends a part to them, and keeps what stands before it.
#[derive(Drop)]
pub(crate) struct Front<'a> {
    pub(crate) out: &'a mut [u8],
    pub(crate) at: usize,
}

impl Front<'_> {
    ghost use Rattle.shift_editions.specs.Appended.{Appended};

    // Appends bytes.
    pub(crate) fn put(&mut self, part: &[u8])
        requires { self.old.at + length part.now ≤ length self.old.out.now }
        ensures { Appended self.old self.new part.now }
    {
        let end = self.at + part.len();
        copy(part, &mut self.out[self.at..end]);
        self.at = end;
    }

    // Appends zeros.
    pub(crate) fn put_zeros(&mut self, len: usize)
        requires { self.old.at + len ≤ length self.old.out.now }
        ensures { Appended self.old self.new (replicate len 0) }
    {
        let end = self.at + len;
        self.out[self.at..end].fill(0);
        self.at = end;
    }
}
