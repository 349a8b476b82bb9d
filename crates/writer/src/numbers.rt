// The text of an accepted table in the number dialect: document 02, change 7. Its parts stand in the order of the nodes, so it is put node by node, and the
// stack does not deepen with the term.
ghost use Rattle.std.specs.Prelude.{◌≡◌};
ghost use Rattle.term.specs.Tree.{tree_table};
ghost use Rattle.text.specs.Dialects.{numbers};
ghost use Rattle.writer.specs.Putting.{Put, TextPut};
ghost use Rattle.writer.specs.NumberParts.{depth_under, node_part, depth_in, DepthRoom, NodeRoom};

use crate::put::put_byte;
use term::{Kind, Tree};

// How many binders are around a node, from how many are around its parent. Depths are told by node.
fn depth_of(tree: &Tree<'_>, node: u32, depths: &[u32; 3001]) -> u32
    requires { DepthRoom (tree_table tree.now) node depths.now }
    ensures { result ≡ depth_under (tree_table tree.now) (depth_in depths.now) node }
{
    let parent = tree.parent(node);
    let around = depths[parent as usize];
    around + u32::from(tree.kind(parent) == Some(Kind::Abstraction))
}

// The part of a node: `\`, `@`, or how many binders stand between a variable and its own.
fn put_node(tree: &Tree<'_>, node: u32, depths: &[u32; 3001], out: &mut [u8], at: usize) -> usize
    requires { NodeRoom (tree_table tree.now) node depths.now at }
    ensures { Put out.old at (node_part (tree_table tree.now) (depth_in depths.now) node)
        result out.new }
{
    // Tests in turn, for what an arm of a match tells that stands for two cases, no proof can cite.
    let kind = tree.kind(node);
    if kind == Some(Kind::Variable) {
        let binder = tree.left(node);
        let index = depths[node as usize] - depths[binder as usize] - 1;
        return at + decimal::put(out, at, index);
    }
    if kind == Some(Kind::Abstraction) {
        return put_byte(out, at, b'\\');
    }
    put_byte(out, at, b'@')
}

// The whole text. Each node's parent and binder come before it, so their depths are known.
pub(crate) fn put_numbers(tree: &Tree<'_>, out: &mut [u8]) -> usize
    ensures { TextPut numbers tree.now.words tree.now.n out.old result out.new }
{
    let mut depths = [0u32; 3001];
    let mut at = put_node(tree, 1, &depths, out, 0);
    for last in 1..tree.n() {
        let node = last + 1;
        depths[node as usize] = depth_of(tree, node, &depths);
        let next = put_byte(out, at, b' ');
        at = put_node(tree, node, &depths, out, next);
    }
    at
}
