// The next token of a text, from a position on.
ghost use Rattle.std.specs.Prelude.{◌≡◌, ◌≤◌, length};
ghost use Rattle.text.specs.Bytes.{sign, class_of};
ghost use Rattle.text.specs.Parse.{starts_atom};
ghost use Rattle.reader.specs.Token.{tokens_from, AfterIs, FirstIs};

use crate::bytes::in_name;
use crate::scan::{name_end, skip};

// Where the text goes on after a sign, if that is the next token.
pub(crate) fn after_mark(text: &[u8], at: usize, mark: u8) -> Option<usize>
    requires { (at ≤ length text.now) × (class_of mark ≡ sign) }
    ensures { AfterIs mark text.now at result }
{
    let i = skip(text, at);
    let byte = *text.get(i)?;
    if byte == mark { Some(i + 1) } else { None }
}

// Where a name stands and ends, if that is the next token.
pub(crate) fn name_first(text: &[u8], at: usize) -> Option<(usize, usize)>
    requires { at ≤ length text.now }
    ensures { FirstIs text.now at result }
{
    let i = skip(text, at);
    let end = name_end(text, i);
    if i < end { Some((i, end)) } else { None }
}

// Whether an atom begins there.
pub(crate) fn starts_atom(text: &[u8], at: usize) -> bool
    ensures { result ≡ starts_atom (tokens_from text.now at) }
{
    match text.get(skip(text, at)) {
        Some(b) => in_name(*b) || *b == b'(',
        None => false,
    }
}
