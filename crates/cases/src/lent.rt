// What the calls are lent: a text, and slices of words.
ghost use Rattle.std.specs.Prelude.{◌≤◌};

use crate::command::Change;
use crate::words::{cut, number_in};

// The text that a call is lent, in a buffer of its own, for the programs have no heap. One byte more than a text of the script may have, so that a longer one shows.
#[derive(Drop)]
pub(crate) struct Text {
    bytes: [u8; 3002],
    len: usize,
    ghost fits: { len ≤ 3002 },
}

impl Text {
    // The text made of pieces with a blank between two; none where it is too long.
    pub(crate) fn of(pieces: &[u8]) -> Option<Text> {
        let mut text = Text {
            bytes: [0; 3002],
            len: 0,
        };
        for piece in pieces.split(|b| *b == b' ') {
            let (times, bytes) = repeated(piece);
            for _ in 0..times {
                text.append(bytes);
            }
        }
        if text.len <= 3001 { Some(text) } else { None }
    }

    // Puts bytes after it. What does not fit is left out.
    fn append(&mut self, bytes: &[u8]) {
        for b in bytes {
            if self.len < 3002 {
                self.bytes[self.len] = meant_byte(*b);
                self.len += 1;
            }
        }
    }

    pub(crate) fn bytes(&self) -> &[u8] {
        &self.bytes[..self.len]
    }
}

// In a text of the script `_` is a blank and `|` a line feed.
fn meant_byte(b: u8) -> u8 {
    match b {
        b'_' => b' ',
        b'|' => b'\n',
        _ => b,
    }
}

// How often a piece's bytes come, and these: a number, a star and the bytes, or bytes, once.
fn repeated(piece: &[u8]) -> (u32, &[u8]) {
    let Some((word, bytes)) = cut(piece, b'*') else {
        return (1, piece);
    };
    match number_in(word) {
        Some(times) => (times, bytes),
        None => (1, piece),
    }
}

// A slice of the script: its words, of which it has `size`, and a call gets the first `lent` of these.
#[derive(Drop)]
pub(crate) struct Slice<T, const N: usize> {
    words: [T; N],
    size: usize,
    lent: usize,
    ghost fits: { size ≤ N },
    ghost part: { lent ≤ size },
}

impl<T: Copy, const N: usize> Slice<T, N> {
    // With no word yet; the array is full of one.
    pub(crate) fn empty(word: T) -> Slice<T, N> {
        Slice {
            words: [word; N],
            size: 0,
            lent: 0,
        }
    }

    // Every word that it has.
    pub(crate) fn words(&self) -> &[T] {
        &self.words[..self.size]
    }

    // The words that a call gets.
    pub(crate) fn lent(&self) -> &[T] {
        &self.words[..self.lent]
    }

    pub(crate) fn lent_mut(&mut self) -> &mut [T] {
        let lent = self.lent;
        let words = &mut self.words;
        &mut words[..lent]
    }

    // Does a change; none where it asks for too much.
    pub(crate) fn change(&mut self, change: Change<T>) -> Option<()> {
        match change {
            Change::Fill(count, word) => self.fill(count as usize, word),
            Change::Set(i, word) => self.set(i as usize, word),
            Change::Lend(count) => self.lend(count as usize),
        }
    }

    // So many words, each the same. One of so many words is lent whole.
    fn fill(&mut self, size: usize, word: T) -> Option<()> {
        if size > N {
            return None;
        }
        let words = [word; N];
        self.words = words;
        self.size = size;
        self.lent = size;
        Some(())
    }

    fn set(&mut self, i: usize, word: T) -> Option<()> {
        if i >= self.size {
            return None;
        }
        self.words[i] = word;
        Some(())
    }

    fn lend(&mut self, count: usize) -> Option<()> {
        if count > self.size {
            return None;
        }
        self.lent = count;
        Some(())
    }
}

impl<const N: usize> Slice<u16, N> {
    // The table of so many abstractions over one variable, which the first of them binds, and zeros after it.
    pub(crate) fn tower(&mut self, count: u32) -> Option<()> {
        let deep = u16::try_from(count).ok()?;
        if deep as usize >= self.size / 5 {
            return None;
        }
        let words = &mut self.words;
        for (i, word) in words.iter_mut().enumerate() {
            *word = tower_word(i, deep);
        }
        Some(())
    }
}

// Word i of that table, whose five columns have as many words as it has nodes.
fn tower_word(i: usize, deep: u16) -> u16 {
    let n = deep as usize + 1;
    tower_field(i / n, (i % n) as u16, deep)
}

// A field (0 to 4: kind, left, right, parent, level) of the node after so many others: the table's words are numbers, kinds too.
fn tower_field(field: usize, before: u16, deep: u16) -> u16 {
    match field {
        0 => if before < deep { 2 } else { 1 },
        1 => if before < deep {
            before.wrapping_add(2)
        } else {
            1
        },
        3 => before,
        _ => 0,
    }
}
