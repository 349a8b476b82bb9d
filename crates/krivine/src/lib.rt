// Krivine's machine on a term's table, its closures as records in a lent slice (document 02, change 11).
#![tactic(auto)]

ghost use Rattle.std.specs.Prelude.{◌≡◌};
ghost use Rattle.kam.specs.Runs.{run_of};
ghost use Rattle.krivine.specs.Types.{ran_meant};

mod index;
mod records;
mod runs;
mod steps;

pub use runs::Run;
use runs::run_on;
use std::fmt;
use term::{Refusal, Tree};

// Why a run ended.
#[derive(Clone, Copy, Debug, PartialEq, Eq)]
pub enum Halt {
    Spent,
    Answer,
    Full,
}

impl fmt::Display for Halt {
    fn fmt<W: fmt::Write>(&self, f: &mut fmt::Formatter<W>) -> fmt::Result {
        match self {
            Halt::Spent => write!(f, "spent"),
            Halt::Answer => write!(f, "answer"),
            Halt::Full => write!(f, "full"),
        }
    }
}

// A run from the start, by a count, with its closures in the lent records; or refused by 7, then 16, with no word written. The slice is never read before it is written, and never cleared.
pub fn run(table: &[u16], n: u32, records: &mut [u32], count: u32) -> Result<Run, Refusal>
    ensures { ran_meant result records.new ≡ run_of table.now n records.old count }
{
    let Some(tree) = Tree::accept(table, n) else {
        return Err(Refusal::NotATable);
    };
    if 16383 < records.len() {
        return Err(Refusal::RecordsTooLong);
    }
    Ok(run_on(&tree, records, count))
}
