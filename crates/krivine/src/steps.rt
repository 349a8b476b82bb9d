// One step of Krivine's machine on the records, for each kind of node (document 02, change 11).
#![tactic(auto, unfolding(kam::specs::Records::laid_by))]

ghost use Rattle.std.specs.Prelude.{◌≡◌, suc, ◌*◌, ◌≤◌, length};
ghost use Rattle.term.specs.Table.{variable, abstraction, application};
ghost use Rattle.term.specs.Tree.{tree_table};
ghost use Rattle.kam.specs.Runs.{most_words};
ghost use Rattle.krivine.specs.Standing.{stood_meant, stepped_by};

use crate::index::index_of;
use crate::records::{Record, put_record, record_at, record_below, rewrite_next};
use term::Tree;

// Where a run stands: its node, the records on top of environment and stack, 0 for none, and how many records are taken.
#[derive(Clone, Copy)]
pub(crate) struct Standing {
    pub node: u32,
    pub environment: u32,
    pub stack: u32,
    pub taken: u32,
}

impl Standing {
    // From an application to its function: a new record, of argument and environment, goes onto the stack.
    pub(crate) fn pushed(self, tree: &Tree<'_>, records: &mut [u32]) -> Standing
        requires { (3 * suc self.taken ≤ length records.old) × (length records.old ≤ most_words) }
        ensures { stood_meant result records.new ≡ stepped_by application (tree_table tree.now) (stood_meant self records.old) }
    {
        let closed = Record {
            node: tree.right(self.node),
            environment: self.environment,
            next: self.stack,
        };
        put_record(records, self.taken, closed);
        Standing {
            node: tree.left(self.node),
            stack: self.taken + 1,
            taken: self.taken + 1,
            ..self
        }
    }

    // From an abstraction to its body: the record on top of the stack moves onto the environment.
    pub(crate) fn moved(self, tree: &Tree<'_>, records: &mut [u32]) -> Standing
        requires { (1 ≤ self.stack) × (3 * self.stack ≤ length records.old) }
        ensures { stood_meant result records.new ≡ stepped_by abstraction (tree_table tree.now) (stood_meant self records.old) }
    {
        let below = record_at(records, self.stack).next;
        rewrite_next(records, self.stack, self.environment);
        Standing {
            node: tree.left(self.node),
            environment: self.stack,
            stack: below,
            ..self
        }
    }

    // From a variable to the argument of its closure, with the closure's environment; no word is written.
    pub(crate) fn fetched(self, tree: &Tree<'_>, records: &[u32]) -> Standing
        ensures { stood_meant result records.now ≡ stepped_by variable (tree_table tree.now) (stood_meant self records.now) }
    {
        let index = index_of(tree, self.node);
        let found = record_below(records, self.environment, index);
        let closure = record_at(records, found);
        Standing {
            node: closure.node,
            environment: closure.environment,
            ..self
        }
    }
}
