// What a state weighs (document 02, change 2): one for a bullet, and for a logged position as much as n has binary digits.
ghost use Rattle.std.specs.Prelude.{◌≡◌, ◌≤◌, length};
ghost use Rattle.calls.specs.Digits.{digits as digits_of};
ghost use Rattle.calls.specs.Weight.{zero_words};
ghost use Rattle.calls.specs.Calls.{longest};
ghost use Rattle.session.specs.Weight.{weight_of, Weighable, bullets_after, HasCount};

use crate::Session;
use crate::choice::Rule;
use term::Tree;

// X, how many binary digits n has: those of a word but for its leading zeros.
fn digits(n: u32) -> u32
    ensures { result ≡ digits_of n }
{
    32 - u32::leading_zeros(n)
}

// How many of a tape's words are bullets. A call counts them once, before its first step.
pub(crate) fn bullets_in(words: &[u32]) -> u32
    requires { length words.now ≤ longest }
    ensures { result ≡ zero_words words.now }
{
    words.iter().filter(|word| **word == 0).count() as u32
}

// How many there are after a step: rules 1 and 7 put one onto the tape, and rules 2 and 5 take one off.
pub(crate) fn bullets_after(rule: Rule, bullets: u32) -> u32
    requires { HasCount rule bullets }
    ensures { result ≡ bullets_after rule bullets }
{
    match rule {
        Rule::One(_) | Rule::Seven(_) => bullets + 1,
        Rule::Two(_) | Rule::Five(_) => bullets - 1,
        Rule::Three(_) | Rule::Four(_) | Rule::Six(_) | Rule::Eight(_) => bullets,
    }
}

// What a state with this session and so many bullets weighs: every other word of log and tape is a logged position's.
pub(crate) fn weight(tree: &Tree<'_>, session: Session, bullets: u32) -> u32
    requires { Weighable tree.now.n session bullets }
    ensures { result ≡ weight_of tree.now.n session bullets }
{
    let positions = session.log_len + session.tape_len - bullets;
    bullets + digits(tree.n()) * positions
}
