// The tree of a closed term: a lent table that is accepted, with its n.
ghost use Rattle.std.specs.Prelude.{◌≡◌, true, IsSome, IfSome, ◌↔◌};
ghost use Rattle.term.specs.Table.{kind_at};
ghost use Rattle.term.specs.Accepted.{accepted};
ghost use Rattle.term.specs.Kinds.{kind_meant};
ghost use Rattle.term.specs.Tree.{LentTree, tree_table};

use crate::accepts;
use crate::kinds::{Kind, kind_of};
use std::marker::Model;

// Every tree is of an accepted table: what takes one need not ask number 7 again.
#[derive(Drop)]
pub struct Tree<'a> {
    table: &'a [u16],
    n: u32,
    ghost is_accepted: { accepted table.now n ≡ true },
}

impl<'a> Model for Tree<'a> {
    ghost Value = { LentTree };

    ghost view = { λ t. record { words = t.table.now; n = t.n; is_accepted = t.is_accepted } };
}

impl<'a> Tree<'a> {
    // The tree whose table of n nodes the slice holds, if it holds one.
    pub fn accept(table: &'a [u16], n: u32) -> Option<Tree<'a>>
        ensures exactly { IsSome result ↔ (accepted table.now n ≡ true) }
        ensures same { IfSome result (λ t. (t.words ≡ table.now) × (t.n ≡ n)) }
    {
        if accepts(table, n) {
            Some(Tree { table, n })
        } else {
            None
        }
    }

    // The same tree. A loop that reads its own copy and writes elsewhere keeps it in registers; behind a reference it is read again after each write. (Copy is not to be had: Rattle has none
    // for a model's struct with a lifetime.)
    pub fn copied(&self) -> Tree<'a>
        ensures { (result.words ≡ self.now.words) × (result.n ≡ self.now.n) }
    {
        Tree {
            table: self.table,
            n: self.n,
        }
    }

    // How many nodes it has.
    pub fn n(&self) -> u32
        ensures { result ≡ self.now.n }
    {
        self.n
    }

    pub fn kind(&self, node: u32) -> Option<Kind>
        ensures { kind_meant result ≡ kind_at (tree_table self.now) node }
    {
        kind_of(self.table, self.n, node)
    }

    // Four methods of one form, as the functions that they call.
    pub fn left(&self, node: u32) -> u32
        ensures { result ≡ (tree_table self.now).left node }
    {
        crate::left(self.table, self.n, node)
    }

    pub fn right(&self, node: u32) -> u32
        ensures { result ≡ (tree_table self.now).right node }
    {
        crate::right(self.table, self.n, node)
    }

    pub fn parent(&self, node: u32) -> u32
        ensures { result ≡ (tree_table self.now).parent node }
    {
        crate::parent(self.table, self.n, node)
    }

    pub fn level(&self, node: u32) -> u32
        ensures { result ≡ (tree_table self.now).level node }
    {
        crate::level(self.table, self.n, node)
    }
}
