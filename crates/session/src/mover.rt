// The mover: the top entries of one list go to a part of the other's slice.
ghost use Rattle.std.specs.Prelude.{◌≤◌, length};
ghost use Rattle.term.specs.Tree.{tree_table};
ghost use Rattle.calls.specs.Calls.{longest};
ghost use Rattle.session.specs.Extent.{ListIn};
ghost use Rattle.session.specs.Mover.{WordsMoved, MoverIs, MakerIs};

use crate::extent::span;
use term::Tree;

// Moves the k words below index `top` of `from` to the front of `to`, in their order, and leaves zeros in their place.
fn move_words(from: &mut [u32], top: usize, k: usize, to: &mut [u32])
    requires { (k ≤ top) × (top ≤ length from.old) × (k ≤ length to.old) }
    ensures { WordsMoved from.old top k to.old from.new to.new }
{
    // Word by word: an entry has few words, and for so few copy_from_slice and fill make a step slower by a seventh.
    let b = top - k;
    for i in 0..k {
        let word = from[b + i];
        to[i] = word;
        from[b + i] = 0;
    }
}

// Moves the next `owed` entries below index `top` of `from` to `to`, which the caller lends as the part of its slice that starts at its present top. Answers how many words were
// moved, or that there was no room for them and nothing was.
pub(crate) fn move_entries(
    tree: &Tree<'_>,
    from: &mut [u32],
    top: usize,
    owed: usize,
    to: &mut [u32],
) -> Option<usize>
    requires { ListIn from.old top × (owed ≤ longest) }
    ensures { MoverIs (tree_table tree.now) from.old top owed to.old result
        from.new to.new }
{
    let k = span(tree, &from[..], top, owed);
    if to.len() < k {
        return None;
    }
    move_words(from, top, k, to);
    Some(k)
}

// The same with the variable's own word above the words moved: the whole entry is written into the part.
pub(crate) fn make_entry(
    tree: &Tree<'_>,
    from: &mut [u32],
    top: usize,
    owed: usize,
    own: u32,
    to: &mut [u32],
) -> Option<usize>
    requires { ListIn from.old top × (owed ≤ longest) }
    ensures { MakerIs (tree_table tree.now) from.old top owed own to.old result
        from.new to.new }
{
    let last = to.len().checked_sub(1)?;
    let k = move_entries(tree, from, top, owed, &mut to[..last])?;
    to[k] = own;
    Some(k)
}
