// The index of a variable: the abstractions between it and its binder.
ghost use Rattle.std.specs.Prelude.{◌≡◌};
ghost use Rattle.term.specs.Tree.{tree_table};
ghost use Rattle.kam.specs.Krivine.{index_at};

use term::{Kind, Tree};

// Counts on the way up from the variable's parent to its binder. No way up has more nodes than the table, so that the walk ends whatever the table.
pub(crate) fn index_of(tree: &Tree<'_>, node: u32) -> u32
    ensures { result ≡ index_at (tree_table tree.now) node }
{
    let binder = tree.left(node);
    let mut at = tree.parent(node);
    let mut between = 0;
    for _ in 0..tree.n() {
        if at == binder {
            break;
        }
        between += u32::from(tree.kind(at) == Some(Kind::Abstraction));
        at = tree.parent(at);
    }
    between
}
