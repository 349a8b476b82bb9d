// A line of the input, as it comes byte by byte.
ghost use Rattle.std.specs.Prelude.{◌≤◌};

// One byte more than a text may have, so that a longer line shows. A buffer of its own, for the programs have no heap.
#[derive(Drop)]
pub(crate) struct Line {
    bytes: [u8; 3001],
    len: usize,
    ghost fits: { len ≤ 3001 },
}

impl Line {
    pub(crate) fn new() -> Line {
        Line {
            bytes: [0; 3001],
            len: 0,
        }
    }

    // Keeps a byte, if it fits.
    pub(crate) fn keep(&mut self, b: u8) {
        if self.len < 3001 {
            self.bytes[self.len] = b;
            self.len += 1;
        }
    }

    pub(crate) fn kept(&self) -> &[u8] {
        &self.bytes[..self.len]
    }

    pub(crate) fn clear(&mut self) {
        self.len = 0;
    }
}
