// The words of a line of the script, with one blank between two.

// What stands before the first byte b, and what stands after it; none where there is no such byte.
pub(crate) fn cut(bytes: &[u8], b: u8) -> Option<(&[u8], &[u8])> {
    let at = bytes.iter().position(|c| *c == b)?;
    Some((&bytes[..at], &bytes[at + 1..]))
}

// A word as a number: digits alone, and at most 4,294,967,295.
pub(crate) fn number_in(word: &[u8]) -> Option<u32> {
    if word.is_empty() {
        return None;
    }
    let mut n = 0u32;
    for b in word {
        let digit = match b {
            b'0'..=b'9' => *b - b'0',
            _ => return None,
        };
        n = n.checked_mul(10)?.checked_add(u32::from(digit))?;
    }
    Some(n)
}

// The words of a line that are still to be read.
#[derive(Clone, Copy)]
pub(crate) struct Words<'a> {
    pub(crate) rest: &'a [u8],
}

impl<'a> Words<'a> {
    // The next word, which is empty where no more is left.
    pub(crate) fn word(&mut self) -> &'a [u8] {
        let (word, rest) = cut(self.rest, b' ').unwrap_or((self.rest, &[]));
        self.rest = rest;
        word
    }

    // The next word, if it is a number.
    pub(crate) fn number(&mut self) -> Option<u32> {
        number_in(self.word())
    }

    // None where something follows.
    pub(crate) fn end(self) -> Option<()> {
        self.rest.is_empty().then_some(())
    }
}
