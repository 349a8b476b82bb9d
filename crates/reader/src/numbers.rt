// Reading by the grammar of the number dialect: a phrase, and a phrase after its space, which call on each other, into the preorder code of what
// is read. Document 02, change 7.
ghost use Rattle.std.specs.Prelude.{◌≡◌, [], ◌∷◌, ◌-◌, ◌≤◌};
ghost use Rattle.decimal.specs.Decimal.{value_after};
ghost use Rattle.text.specs.Bytes.{space};
ghost use Rattle.text.specs.NumberParse.{is_number};
ghost use Rattle.reader.specs.Numbers.{word_under, PhraseRoom, PhraseRead, NumberRead};

use crate::grammar::Got;
use crate::scan::digits_at;

// An abstraction, an application or a number, which its first byte tells.
#[cycle(phrase_spaced)]
pub(crate) fn phrase(text: &[u8], at: usize, depth: usize, out: &mut [u32], node: usize) -> Got
    requires { PhraseRoom text.now at depth out.old node }
    ensures { PhraseRead [] text.now at depth out.old node result out.new }
{
    match text.get(at) {
        Some(b'\\') => {
            out[node] = 1;
            spaced(text, at + 1, depth + 1, out, node + 1)
        }
        Some(b'@') => {
            out[node] = 2;
            let (p, m) = spaced(text, at + 1, depth, out, node + 1)?;
            spaced(text, p, depth, out, m)
        }
        _ => number(text, at, depth, out, node),
    }
}

// One space, and the phrase after it.
#[cycle(phrase_spaced)]
fn spaced(text: &[u8], at: usize, depth: usize, out: &mut [u32], node: usize) -> Got
    requires { PhraseRoom text.now at depth out.old node }
    ensures { PhraseRead (space ∷ []) text.now at depth out.old node result out.new }
{
    if text.get(at) != Some(&b' ') {
        return None;
    }
    phrase(text, at + 1, depth, out, node)
}

// The digits that stand there, if they are a number.
fn number(text: &[u8], at: usize, depth: usize, out: &mut [u32], node: usize) -> Got
    requires { PhraseRoom text.now at depth out.old node }
    ensures { NumberRead text.now at depth out.old node result out.new }
{
    let digits = digits_at(text, at);
    if !is_number(digits) {
        return None;
    }
    out[node] = number_word(digits, depth);
    Some((at + digits.len(), node + 1))
}

// Whether digits are a number: one, or more of which the first is not 0.
fn is_number(digits: &[u8]) -> bool
    ensures { result ≡ is_number digits.now }
{
    match digits {
        [] => false,
        [_] => true,
        [first, ..] => *first != b'0',
    }
}

// What a digit counts.
fn digit_value(b: u8) -> usize
    ensures { (result ≡ b - 48) × (result ≤ 255) }
{
    b.saturating_sub(b'0') as usize
}

// The word of a number under so many binders, and 0 where it reaches past them, as the definition `word_under` has it: number 14 is put to the words of the whole text. Its value is cut at
// the binders, so that no number is too large, and once it is cut no further digit is looked at.
fn number_word(digits: &[u8], depth: usize) -> u32
    requires { depth ≤ 3000 }
    ensures { result ≡ word_under depth (value_after 0 digits.now) }
{
    let mut value = 0;
    for b in digits {
        if value == depth {
            return 0;
        }
        value = depth.min(10 * value + digit_value(*b));
    }
    if value < depth { (3 + value) as u32 } else { 0 }
}
