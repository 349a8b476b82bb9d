// What stands where in a text: names, gaps, digits, the word of a variable, and the numbers 2 and 3.
ghost use Rattle.std.specs.Prelude.{◌≡◌, Bool, ℕ, [], ◌+◌, ◌≤◌, length, drop};
ghost use Rattle.std.specs.List.{take_while};
ghost use Rattle.text.specs.Tokens.{tokens, is_bad_name, any_bad_name};
ghost use Rattle.text.specs.Binding.{same_name, index_of};
ghost use Rattle.text.specs.Reading.{any_foreign};
ghost use Rattle.text.specs.NumberParse.{digits_first};
ghost use Rattle.reader.specs.Scanning.{name_run, gap_run, name_at, names_at};
ghost use Rattle.reader.specs.Grammar.{variable_word};

use crate::bytes::{in_gap, in_name, is_digit, is_foreign};

// The bytes from a position on; none past the end.
fn rest(text: &[u8], at: usize) -> &[u8]
    ensures { result.now ≡ drop at text.now }
{
    text.get(at..).unwrap_or(&[])
}

// The bytes of a kind that stand at a position, one after another.
fn run<F: Fn(u8) -> bool>(text: &[u8], at: usize, is: F) -> &[u8]
    requires { F.IsAlwaysCallable is }
    ensures { (kind : ℕ → Bool) → ((b : ℕ) (r : Bool) → F.post is b r → r ≡ kind b) → result.now ≡ take_while kind (drop at text.now) }
{
    let bytes = rest(text, at);
    let many = bytes.iter().take_while(|b| is(**b)).count();
    &bytes[..many]
}

// The name that stands at a position.
fn name_at(text: &[u8], at: usize) -> &[u8]
    ensures { result.now ≡ name_at text.now at }
{
    run(text, at, in_name)
}

// The digits that stand at a position.
pub(crate) fn digits_at(text: &[u8], at: usize) -> &[u8]
    ensures { result.now ≡ digits_first (drop at text.now) }
{
    run(text, at, is_digit)
}

// Where the name that stands at `at` ends; `at` itself where no name does.
pub(crate) fn name_end(text: &[u8], at: usize) -> usize
    ensures { result ≡ at + name_run (drop at text.now) }
{
    at + name_at(text, at).len()
}

// Where the next token stands, or the end.
pub(crate) fn skip(text: &[u8], at: usize) -> usize
    ensures { result ≡ at + gap_run (drop at text.now) }
{
    at + run(text, at, in_gap).len()
}

// Number 2: whether some byte is foreign.
pub(crate) fn any_foreign(text: &[u8]) -> bool
    ensures { result ≡ any_foreign text.now }
{
    text.iter().any(|b| is_foreign(*b))
}

// Whether a name has over 8 bytes or starts with a digit.
fn bad_name(name: &[u8]) -> bool
    ensures { result ≡ is_bad_name name.now }
{
    8 < name.len() || name.first().is_some_and(|b| is_digit(*b))
}

// Number 3: whether some name has over 8 bytes or starts with a digit.
pub(crate) fn any_bad_name(text: &[u8]) -> bool
    ensures { result ≡ any_bad_name (tokens text.now) }
{
    text.split(|b| !in_name(*b)).any(bad_name)
}

// Whether the names that stand at two positions are the same.
fn same_name(text: &[u8], a: usize, b: usize) -> bool
    ensures { result ≡ same_name (name_at text.now a) (name_at text.now b) }
{
    name_at(text, a) == name_at(text, b)
}

// The word of the variable whose name stands at `at`: 3 plus the number of binders between it and its own, which is the innermost of
// that name; 0 where it has none. (0, and not None, since the code has it: number 5 is looked for there when the whole text is read.)
#[inline(never)]
pub(crate) fn variable_word(text: &[u8], at: usize, scope: &[u32]) -> u32
    requires { length scope.now ≤ 3000 }
    ensures { result ≡ variable_word (index_of (name_at text.now at) (names_at text.now scope.now [])) }
{
    let binder = scope
        .iter()
        .rev()
        .position(|binder| same_name(text, at, *binder as usize));
    match binder {
        Some(k) => (3 + k) as u32,
        None => 0,
    }
}
