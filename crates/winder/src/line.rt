// Lines of output, which wait in a buffer until they are written out.
ghost use Rattle.winder.specs.Lines.{IsPrefixLen};

use session::{Dir, Session};
use std::fmt::Write;
use std::{fmt, io};

// How many bytes wait before they are written out; a state's line takes at most 10,300.
const WAITING: usize = 50000;

// The bytes up to `at` wait, in a buffer of their own, for the programs have no heap. What does not fit is left out.
#[derive(Drop)]
pub(crate) struct Lines {
    bytes: [u8; 65536],
    at: usize,
    ghost fits: { IsPrefixLen at bytes },
}

impl fmt::Write for Lines {
    fn write_str(&mut self, s: &str) -> fmt::Result {
        // Byte by byte: of an array into a part of which bytes are copied the check does not find that `fits` holds still.
        for b in s.as_bytes() {
            if self.at < 65536 {
                self.bytes[self.at] = *b;
                self.at += 1;
            }
        }
        Ok(())
    }
}

impl Lines {
    pub(crate) fn new() -> Lines {
        Lines {
            bytes: [0; 65536],
            at: 0,
        }
    }

    // A state: its position, node, and d or u, L and the log, T and the tape, both from the top, one blank between.
    pub(crate) fn put_state(&mut self, s: Session, log: &[u32], tape: &[u32]) {
        let dir = match s.dir {
            Dir::Down => 'd',
            Dir::Up => 'u',
        };
        let _place = write!(self, "{} {} {dir} L", s.position, s.node);
        self.put_words(log, s.log_len);
        let _label = write!(self, " T");
        self.put_words(tape, s.tape_len);
        let _end = writeln!(self);
    }

    // The first `len` words of a slice, from the top, a blank before each.
    fn put_words(&mut self, words: &[u32], len: u32) {
        let top = words.len().min(len as usize);
        for word in words[..top].iter().rev() {
            let _word = write!(self, " {word}");
        }
    }

    // Writes out all that waits.
    fn write_out(&mut self, rt: &impl Print) -> io::Result<()> {
        rt.write_all(&self.bytes[..self.at])?;
        self.at = 0;
        Ok(())
    }

    // Writes out what waits, if it is much.
    pub(crate) fn make_room(&mut self, rt: &impl Print) -> io::Result<()> {
        if WAITING < self.at {
            self.write_out(rt)
        } else {
            Ok(())
        }
    }

    // The last line, and everything that still waits.
    pub(crate) fn end<D: fmt::Display>(&mut self, rt: &impl Print, last: &D) -> io::Result<()> {
        let _last = writeln!(self, "{last}");
        self.write_out(rt)
    }
}
