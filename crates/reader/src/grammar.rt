// Reading by the grammar: a term, an application and an atom, which call on each other, into the preorder code of what is read.
ghost use Rattle.std.specs.Prelude.{◌+◌, ◌≤◌, length};
ghost use Rattle.reader.specs.Grammar.{cursor, CodeRoom, TermRead, AbstractionRead, ApplicationRead, AtomRead, BracketsRead, Marked};

use crate::scan::variable_word;
use crate::token::{after_mark, name_first, starts_atom};

// Each function takes the text, the scope and the code as parameters, and no struct of them: a lent slice keeps its length in every call, which of a
// struct's field each contract here would have to say. What writes marks and looks for a binder is kept out of line, so that a level of the stack stays small.

// The words of the code are numbers: 0, 1, 2, or 3 and an index, as the definition `code_of` writes them.

// The position after what was read, and the word after its code.
pub(crate) type Got = Option<(usize, usize)>;

#[cycle(abstraction_application_atom_brackets_term)]
pub(crate) fn term(
    text: &[u8],
    at: usize,
    scope: &mut [u32],
    depth: usize,
    out: &mut [u32],
    node: usize,
) -> Got
    requires { CodeRoom (cursor text.now at scope.old depth out.old node) }
    ensures { TermRead text.now at scope.old depth out.old node result
        scope.new out.new }
{
    match after_mark(text, at, b'\\') {
        Some(p) => abstraction(text, p, scope, depth, out, node),
        None => application(text, at, scope, depth, out, node),
    }
}

// A term after its `\`: the name, which is in scope for the body, and the body.
#[cycle(abstraction_application_atom_brackets_term)]
fn abstraction(
    text: &[u8],
    at: usize,
    scope: &mut [u32],
    depth: usize,
    out: &mut [u32],
    node: usize,
) -> Got
    requires { CodeRoom (cursor text.now at scope.old depth out.old node) }
    ensures { AbstractionRead text.now at scope.old depth out.old node result
        scope.new out.new }
{
    let (x, p) = name_first(text, at)?;
    let q = after_mark(text, p, b'.')?;
    scope[depth] = x as u32;
    out[node] = 1;
    term(text, q, scope, depth + 1, out, node + 1)
}

// The atoms are written one after another, for as long as one begins, and then the marks of their applications in front of them. A loop, and
// not a call for each atom, so that the stack deepens with brackets and abstractions alone; and one call of `atom` in the code, not one for the first
// atom and one for the others, since a second one makes each level of the stack half as large again.
#[cycle(abstraction_application_atom_brackets_term)]
fn application(
    text: &[u8],
    at: usize,
    scope: &mut [u32],
    depth: usize,
    out: &mut [u32],
    node: usize,
) -> Got
    requires { CodeRoom (cursor text.now at scope.old depth out.old node) }
    ensures { ApplicationRead text.now at scope.old depth out.old node result
        scope.new out.new }
{
    let mut p = at;
    let mut m = node;
    let mut k = 0;
    while starts_atom(text, p) {
        (p, m) = atom(text, p, scope, depth, out, m)?;
        k += 1;
    }
    if k == 0 {
        return None;
    }
    marks(out, node, m, k - 1);
    Some((p, m + (k - 1)))
}

#[cycle(abstraction_application_atom_brackets_term)]
fn atom(
    text: &[u8],
    at: usize,
    scope: &mut [u32],
    depth: usize,
    out: &mut [u32],
    node: usize,
) -> Got
    requires { CodeRoom (cursor text.now at scope.old depth out.old node) }
    ensures { AtomRead text.now at scope.old depth out.old node result
        scope.new out.new }
{
    let Some((x, p)) = name_first(text, at) else {
        let inner = after_mark(text, at, b'(')?;
        return brackets(text, inner, scope, depth, out, node);
    };
    out[node] = variable_word(text, x, &scope[..depth]);
    Some((p, node + 1))
}

// The term in brackets, after the opening one.
#[cycle(abstraction_application_atom_brackets_term)]
fn brackets(
    text: &[u8],
    at: usize,
    scope: &mut [u32],
    depth: usize,
    out: &mut [u32],
    node: usize,
) -> Got
    requires { CodeRoom (cursor text.now at scope.old depth out.old node) }
    ensures { BracketsRead text.now at scope.old depth out.old node result
        scope.new out.new }
{
    let (p, m) = term(text, at, scope, depth, out, node)?;
    let end = after_mark(text, p, b')')?;
    Some((end, m))
}

// Moves the words from `first` to `end` up by `by`, and puts `by` marks of applications in front of them.
#[inline(never)]
fn marks(out: &mut [u32], first: usize, end: usize, by: usize)
    requires { (first ≤ end) × (end + by ≤ length out.old) }
    ensures { Marked first end by out.old out.new }
{
    out.copy_within(first..end, first + by);
    out[first..first + by].fill(2);
}
