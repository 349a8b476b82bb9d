// Which of the eight rules fits a session.
ghost use Rattle.std.specs.Prelude.{◌≡◌, ◌-◌, ◌≤◌, MatchOption, length, slice_index};
ghost use Rattle.session.specs.Rules.{Chooses};

use crate::{Dir, Session};
use term::{Kind, Tree};

// The rule of document 01 that fits, and the node that it leads to. Each case has its node, so that a rule stands nowhere without one; all that asks for a rule's kind alone groups cases.
#[derive(Clone, Copy)]
pub(crate) enum Rule {
    One(u32),
    Two(u32),
    Three(u32),
    Four(u32),
    Five(u32),
    Six(u32),
    Seven(u32),
    Eight(u32),
}

// The word on top of a tape of so many words, if it has one.
fn top_word(tape: &[u32], len: u32) -> Option<u32>
    requires { len ≤ length tape.now }
    ensures { MatchOption result (len ≡ 0) (λ word. (1 ≤ len) × (word ≡ slice_index tape.now (len - 1))) }
{
    tape[..len as usize].last().copied()
}

// The rule that fits down at a node, if one does: by the node's kind, and at an abstraction by the word on top of the tape.
fn chosen_down(tree: &Tree<'_>, session: Session, tape: &[u32]) -> Option<Rule>
    requires { (session.dir ≡ Dir.Down) × (session.tape_len ≤ length tape.now) }
    ensures { Chooses tree.now.words tree.now.n session tape.now result }
{
    let node = session.node;
    let left = tree.left(node);
    match tree.kind(node)? {
        Kind::Application => Some(Rule::One(left)),
        Kind::Variable => Some(Rule::Three(left)),
        Kind::Abstraction => {
            let top = top_word(tape, session.tape_len)?;
            if top == 0 {
                return Some(Rule::Two(left));
            }
            let binder = tree.left(top);
            if binder == node {
                Some(Rule::Four(top))
            } else {
                None
            }
        }
    }
}

// The rule that fits up at a node, if one does: by its place under its parent, and at a function by the word on top of the tape.
fn chosen_up(tree: &Tree<'_>, session: Session, tape: &[u32]) -> Option<Rule>
    requires { (session.dir ≡ Dir.Up) × (session.tape_len ≤ length tape.now) }
    ensures { Chooses tree.now.words tree.now.n session tape.now result }
{
    let node = session.node;
    let p = tree.parent(node);
    let left = tree.left(p);
    let right = tree.right(p);
    match tree.kind(p)? {
        Kind::Abstraction if left == node => Some(Rule::Seven(p)),
        Kind::Application if left == node => {
            let top = top_word(tape, session.tape_len)?;
            if top == 0 {
                Some(Rule::Five(p))
            } else {
                Some(Rule::Six(right))
            }
        }
        Kind::Application if right == node => Some(Rule::Eight(left)),
        _ => None,
    }
}

// The rule that fits, if one does.
pub(crate) fn chosen(tree: &Tree<'_>, session: Session, tape: &[u32]) -> Option<Rule>
    requires { session.tape_len ≤ length tape.now }
    ensures { Chooses tree.now.words tree.now.n session tape.now result }
{
    match session.dir {
        Dir::Down => chosen_down(tree, session, tape),
        Dir::Up => chosen_up(tree, session, tape),
    }
}
