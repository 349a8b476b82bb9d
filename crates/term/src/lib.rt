// The table of a term: its words by node, and the test of number 7.
#![tactic(auto)]

ghost use Rattle.std.specs.Prelude.{◌≡◌, not, ◌≤◌, ◌<◌, length, nat_eq};
ghost use Rattle.std.specs.List.{list_any};
ghost use Rattle.term.specs.Choice.{is_none};
ghost use Rattle.term.specs.Table.{columns, word_in, table_in};
ghost use Rattle.term.specs.Accepted.{most_nodes, accepted, binder_index};
ghost use Rattle.term.specs.Walk.{RootIs, binders_in, Rising, ScopeRoom, end_said, PartWalked};

mod kinds;
mod refusal;
mod tree;

pub use kinds::{Kind, kind_of};
pub use refusal::Refusal;
pub use tree::Tree;

// Field 0 to 4 of a node, and 0 where there is none. Document 02, change 8: "five columns of n words, 16 bits wide, one behind the other in one slice".
fn word(table: &[u16], n: u32, node: u32, field: u32) -> u32
    requires { field < 5 }
    ensures { result ≡ word_in columns table.now n node field }
{
    let nodes = n as usize;
    if table.len() < 5 * nodes {
        return 0;
    }
    if node == 0 {
        return 0;
    }
    if n < node {
        return 0;
    }
    table[field as usize * nodes + (node as usize - 1)] as u32
}

// Five names for `word` at five constants: `left(..)` says more than a field's number would, and each has its own promise.
pub fn kind(table: &[u16], n: u32, node: u32) -> u32
    ensures { result ≡ (table_in table.now n).kind node }
{
    word(table, n, node, 0)
}

pub fn left(table: &[u16], n: u32, node: u32) -> u32
    ensures { result ≡ (table_in table.now n).left node }
{
    word(table, n, node, 1)
}

pub fn right(table: &[u16], n: u32, node: u32) -> u32
    ensures { result ≡ (table_in table.now n).right node }
{
    word(table, n, node, 2)
}

pub fn parent(table: &[u16], n: u32, node: u32) -> u32
    ensures { result ≡ (table_in table.now n).parent node }
{
    word(table, n, node, 3)
}

pub fn level(table: &[u16], n: u32, node: u32) -> u32
    ensures { result ≡ (table_in table.now n).level node }
{
    word(table, n, node, 4)
}

// Whether node b is one of the binders. (A function of its own, called as one: no address of what the walk below holds is taken then, and its last call takes no stack.)
#[inline(never)]
fn is_among(binders: &[u32], b: u32) -> bool
    ensures { result ≡ list_any (λ c. nat_eq c b) binders.now }
{
    binders.contains(&b)
}

// Whether node b is among the first `depth` binders of the scope, which stand in their order: one of the inner half is looked for from the innermost on, and one of the outer half from the
// outermost. (Scope and depth are two parameters: the walk below writes above the depth.)
fn in_scope(scope: &[u32], depth: usize, b: u32) -> bool
    requires { (depth ≤ length scope.now) × Rising scope.now depth }
    ensures { result ≡ not (is_none (binder_index b (binders_in scope.now depth))) }
{
    let half = depth / 2;
    if half < depth {
        if scope[half] <= b {
            return scope[half..depth].iter().rev().any(|c| *c == b);
        }
    }
    is_among(&scope[..half], b)
}

// The kind of node i, if its own words let it be the root of a part with parent p and level v.
fn root(table: &[u16], n: u32, i: u32, p: u32, v: u32) -> Option<Kind>
    requires { n ≤ most_nodes }
    ensures { RootIs (table_in table.now n) i p v result }
{
    if n < i {
        return None;
    }
    if parent(table, n, i) != p {
        return None;
    }
    if level(table, n, i) != v {
        return None;
    }
    let l = left(table, n, i);
    let r = right(table, n, i);
    match kind_of(table, n, i)? {
        Kind::Variable => {
            if r != 0 {
                return None;
            }
            Some(Kind::Variable)
        }
        Kind::Abstraction => {
            if r != 0 {
                return None;
            }
            if l != i + 1 {
                return None;
            }
            Some(Kind::Abstraction)
        }
        Kind::Application => {
            if l != i + 1 {
                return None;
            }
            Some(Kind::Application)
        }
    }
}

// The node after the part whose root is node i, with parent p, level v and the first `depth` binders of the scope around it; 0, which is no node, where there is no such part. (A number and
// no Option, which `end_said` makes of it in the contract: an Option is answered in two registers, and then the last call here takes stack and time at each level of the term.)
fn part_end(table: &[u16], n: u32, scope: &mut [u32], depth: usize, i: u32, p: u32, v: u32) -> u32
    requires { ScopeRoom scope.old n depth i v }
    ensures { PartWalked (table_in table.now n) scope.old scope.new depth i p v (end_said result) }
{
    let Some(kind) = root(table, n, i, p, v) else {
        return 0;
    };
    match kind {
        Kind::Variable => {
            let b = left(table, n, i);
            if in_scope(scope, depth, b) { i + 1 } else { 0 }
        }
        Kind::Abstraction => {
            scope[depth] = i;
            part_end(table, n, scope, depth + 1, i + 1, i, v)
        }
        Kind::Application => {
            let j = part_end(table, n, scope, depth, i + 1, i, v);
            if j == 0 {
                return 0;
            }
            if right(table, n, i) != j {
                return 0;
            }
            part_end(table, n, scope, depth, j, i, v + 1)
        }
    }
}

// Whether the slice holds the table of a closed term of n nodes, from 1 to 3,000.
pub fn accepts(table: &[u16], n: u32) -> bool
    ensures { result ≡ accepted table.now n }
{
    if n == 0 {
        return false;
    }
    if n > 3000 {
        return false;
    }
    if table.len() < 5 * n as usize {
        return false;
    }
    let mut scope = [0u32; 3000];
    part_end(table, n, &mut scope, 0, 1, 0, 0) == n + 1
}
