// How many lines there are of each verdict.
use crate::verdict::Verdict;
use std::fmt;

#[derive(Clone, Copy, Default)]
pub(crate) struct Counts {
    refused: u64,
    agreed: u64,
    differed: u64,
    one: u64,
    neither: u64,
}

impl Counts {
    // Counts a line.
    pub(crate) fn count(&mut self, verdict: Verdict) {
        let count = match verdict {
            Verdict::Refused => &mut self.refused,
            Verdict::Agreed => &mut self.agreed,
            Verdict::Differed => &mut self.differed,
            Verdict::One => &mut self.one,
            Verdict::Neither => &mut self.neither,
        };
        *count = count.wrapping_add(1);
    }
}

// Refused, answered by both machines, by one, by neither, and by both at different nodes.
impl fmt::Display for Counts {
    fn fmt<W: fmt::Write>(&self, f: &mut fmt::Formatter<W>) -> fmt::Result {
        let both = self.agreed.wrapping_add(self.differed);
        write!(
            f,
            "{} {both} {} {} {}",
            self.refused, self.one, self.neither, self.differed
        )
    }
}
