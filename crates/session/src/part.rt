// Where the top entry of a list lies in its slice: the part that `top` returns.
ghost use Rattle.std.specs.Prelude.{◌≡◌, ◌≤◌};
ghost use Rattle.term.specs.Tree.{tree_table};
ghost use Rattle.calls.specs.Top.{top_of};
ghost use Rattle.session.specs.Types.{lent, which_meant};
ghost use Rattle.session.specs.Extent.{ListIn};
ghost use Rattle.session.specs.Part.{item_span, place_meant, place_in, placed};

use crate::check::test_call;
use crate::extent::span;
use crate::{Session, Which};
use term::{Refusal, Tree};

// The index of a part's first word, and how many words it has.
#[derive(Clone, Copy)]
pub(crate) struct Place {
    pub(crate) offset: usize,
    pub(crate) size: usize,
}

// How many words are those of what is on top of a list of `len` words: a bullet has one. (Slice and length are two parameters, as the definition `ListIn` has them.)
fn item_size(tree: &Tree<'_>, words: &[u32], len: usize) -> usize
    requires { (1 ≤ len) × ListIn words.now len }
    ensures { (result ≡ item_span (tree_table tree.now) words.now len) × (result ≤ len) }
{
    if words[len - 1] == 0 {
        return 1;
    }
    span(tree, words, len, 1)
}

// Where they lie, below the end of the list; 10 where it has no word.
fn place_in(tree: &Tree<'_>, words: &[u32], len: u32) -> Result<Place, Refusal>
    requires { ListIn words.now len }
    ensures { place_meant result ≡ place_in (tree_table tree.now) words.now len }
{
    if len == 0 {
        return Err(Refusal::NothingOnTop);
    }
    let end = len as usize;
    let size = item_size(tree, words, end);
    Ok(Place {
        offset: end - size,
        size,
    })
}

// The same of the chosen list, on whatever is lent: 7 to 9 come first.
pub(crate) fn top_place(
    table: &[u16],
    n: u32,
    session: Session,
    log: &[u32],
    tape: &[u32],
    which: Which,
) -> Result<Place, Refusal>
    ensures { place_meant result ≡ placed (top_of (which_meant which) (lent table.now n session log.now tape.now)) }
{
    let tree = test_call(table, n, session, log, tape)?;
    let words = which.choose(log, tape);
    let len = which.choose(session.log_len, session.tape_len);
    place_in(&tree, words, len)
}
