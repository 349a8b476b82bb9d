// The arity of a variable, and how many words the top entries of a list take.
ghost use Rattle.std.specs.Prelude.{◌≡◌, ◌≤◌};
ghost use Rattle.term.specs.Table.{arity as arity_of};
ghost use Rattle.term.specs.Tree.{tree_table};
ghost use Rattle.calls.specs.Calls.{longest};
ghost use Rattle.session.specs.Extent.{ListIn, span_below};

use term::Tree;

// The arity of a variable: its level less its binder's level, and 0 where that is less than nothing.
pub(crate) fn arity(tree: &Tree<'_>, v: u32) -> u32
    ensures { result ≡ arity_of (tree_table tree.now) v }
{
    let own = tree.level(v);
    let binder = tree.left(v);
    let outer = tree.level(binder);
    own.saturating_sub(outer)
}

// How many of the words below index `top`, read from the top down, the next `owed` entries take: each word pays one entry and owes its arity.
pub(crate) fn span(tree: &Tree<'_>, words: &[u32], top: usize, owed: usize) -> usize
    requires { ListIn words.now top × (owed ≤ longest) }
    ensures { (result ≡ span_below (tree_table tree.now) words.now top owed) × (result ≤ top) }
{
    let mut left = owed;
    for (i, word) in words[..top].iter().rev().enumerate() {
        if left == 0 {
            return i;
        }
        let inside = arity(tree, *word) as usize;
        left = left - 1 + inside;
    }
    top
}
