// A part of an accepted table as text: document 02, change 3.
ghost use Rattle.std.specs.Prelude.{false, List, ℕ};
ghost use Rattle.term.specs.Term.{Term};
ghost use Rattle.writer.specs.Putting.{Puttable, PartPut};

use crate::put::{put_binder, put_byte, put_name};
use term::{Kind, Tree};

// The part whose root is a node. Nodes are numbered in preorder, so a body or a function is the node after it.
#[cycle(put_enclosed_put_part)]
pub(crate) fn put_part(tree: &Tree<'_>, node: u32, out: &mut [u8], at: usize) -> usize
    requires { (t : Term) × ((bs : List ℕ) × Puttable tree.now.words tree.now.n node false at t bs) }
    ensures { PartPut tree.now.words tree.now.n node false at out.old result out.new }
{
    // Tests in turn, for what an arm of a match tells that stands for two cases, no proof can cite.
    let kind = tree.kind(node);
    if kind == Some(Kind::Variable) {
        return put_name(out, at, tree.left(node));
    }
    if kind == Some(Kind::Abstraction) {
        let body = put_binder(out, at, node);
        return put_part(tree, node + 1, out, body);
    }
    let function = node + 1;
    let argument = tree.right(node);
    let abstracts = tree.kind(function) == Some(Kind::Abstraction);
    let space = put_enclosed(tree, function, abstracts, out, at);
    let next = put_byte(out, space, b' ');
    let compound = tree.kind(argument) != Some(Kind::Variable);
    put_enclosed(tree, argument, compound, out, next)
}

// The same in brackets, where they are wanted.
#[cycle(put_enclosed_put_part)]
fn put_enclosed(tree: &Tree<'_>, node: u32, brackets: bool, out: &mut [u8], at: usize) -> usize
    requires { (t : Term) × ((bs : List ℕ) × Puttable tree.now.words tree.now.n node brackets at t bs) }
    ensures { PartPut tree.now.words tree.now.n node brackets at out.old result out.new }
{
    if !brackets {
        return put_part(tree, node, out, at);
    }
    let inner = put_byte(out, at, b'(');
    let end = put_part(tree, node, out, inner);
    put_byte(out, end, b')')
}
