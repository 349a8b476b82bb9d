// A run of Krivine's machine by a count: the tests before each step, and the loop (document 02, change 11).
ghost use Rattle.std.specs.Prelude.{◌≡◌, ◌≤◌, length};
ghost use Rattle.term.specs.Tree.{tree_table};
ghost use Rattle.kam.specs.Runs.{start_moment, run_from, most_words};
ghost use Rattle.krivine.specs.Types.{run_meant};
ghost use Rattle.krivine.specs.Standing.{stood_meant, pass_of, pass_meant, Steady};

use crate::Halt;
use crate::steps::Standing;
use term::{Kind, Tree};

// What a run answers: the node where it stands, the steps made, and why it ended. (It is declared here and not beside the function `run`, for Rattle refuses two names in one module
// that differ in the case of a letter alone.)
#[derive(Clone, Copy, Debug, PartialEq, Eq)]
pub struct Run {
    pub node: u32,
    pub steps: u32,
    pub halt: Halt,
}

// One pass of the loop, the count not used up: on to where a step leads, or halted. Answer is tested before full, and each is said at a node of one kind alone.
fn one_pass(tree: &Tree<'_>, at: Standing, records: &mut [u32]) -> Result<Standing, Halt>
    requires { Steady (tree_table tree.now) (stood_meant at records.old) }
    ensures { pass_meant result records.new ≡ pass_of (tree_table tree.now) (stood_meant at records.old) }
{
    match tree.kind(at.node) {
        Some(Kind::Abstraction) => {
            if at.stack == 0 {
                return Err(Halt::Answer);
            }
            Ok(at.moved(tree, records))
        }
        Some(Kind::Application) => {
            if records.len() < 3 * at.taken as usize + 3 {
                return Err(Halt::Full);
            }
            Ok(at.pushed(tree, records))
        }
        Some(Kind::Variable) | None => Ok(at.fetched(tree, records)),
    }
}

// At most `count` passes from the start.
pub(crate) fn run_on(tree: &Tree<'_>, records: &mut [u32], count: u32) -> Run
    requires { length records.old ≤ most_words }
    ensures { run_meant result records.new ≡ run_from (tree_table tree.now) count (start_moment records.old) }
{
    let mut at = Standing {
        node: 1,
        environment: 0,
        stack: 0,
        taken: 0,
    };
    for steps in 0..count {
        match one_pass(tree, at, records) {
            Ok(to) => at = to,
            Err(halt) => {
                return Run {
                    node: at.node,
                    steps,
                    halt,
                };
            }
        }
    }
    Run {
        node: at.node,
        steps: count,
        halt: Halt::Spent,
    }
}
