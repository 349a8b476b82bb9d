// One step of the plain machine on a session and its slices: the eight rules.
ghost use Rattle.std.specs.Prelude.{◌≡◌, ◌≤◌, length};
ghost use Rattle.calls.specs.Calls.{longest};
ghost use Rattle.term.specs.Tree.{tree_table};
ghost use Rattle.session.specs.Extent.{ListIn};
ghost use Rattle.session.specs.Steps.{Steps};
ghost use Rattle.session.specs.Rules.{Fitting, BulletComes, BulletGoes, full_stop, EndsFit, ends_after, MovedOnto, onto_log, onto_tape};

use crate::choice::Rule;
use crate::extent::arity;
use crate::mover::{make_entry, move_entries};
use crate::{Dir, Session, Stop};
use term::Tree;

// Where a step leads: its node and direction, and the lengths in words of log and tape there; and how many words it moved between the two.
#[derive(Clone, Copy)]
pub(crate) struct Arrival {
    pub(crate) node: u32,
    pub(crate) dir: Dir,
    pub(crate) log_len: u32,
    pub(crate) tape_len: u32,
    pub(crate) carried: u32,
}

// The slice that has no room for a step.
#[derive(Clone, Copy)]
pub(crate) enum Full {
    Log,
    Tape,
}

impl From<Full> for Stop {
    ghost from_gives = { λ full stop. stop ≡ full_stop full };

    fn from(full: Full) -> Stop {
        match full {
            Full::Log => Stop::LogFull,
            Full::Tape => Stop::TapeFull,
        }
    }
}

// After words moved from one list to the other: the lengths in words of the list that they left and of the one that they came to, and how many they are.
#[derive(Clone, Copy)]
pub(crate) struct ListEnds {
    pub(crate) left: u32,
    pub(crate) came: u32,
    pub(crate) carried: u32,
}

impl ListEnds {
    // Rules 4 and 6. Words have moved from the tape to the log. (Two functions, here and for the bullets below: one would have to be told by a flag which list it is.)
    fn onto_log(self, node: u32, dir: Dir) -> Arrival
        ensures { result ≡ onto_log node dir self }
    {
        Arrival {
            node,
            dir,
            log_len: self.came,
            tape_len: self.left,
            carried: self.carried,
        }
    }

    // Rules 3 and 8. Words have moved from the log to the tape.
    fn onto_tape(self, node: u32, dir: Dir) -> Arrival
        ensures { result ≡ onto_tape node dir self }
    {
        Arrival {
            node,
            dir,
            log_len: self.left,
            tape_len: self.came,
            carried: self.carried,
        }
    }
}

// Rules 1 and 7. A bullet goes onto the tape: the word 0, which lies above the top already.
fn push_bullet(session: Session, node: u32, dir: Dir, tape: &[u32]) -> Result<Arrival, Full>
    requires { length tape.now ≤ longest }
    ensures { BulletComes session node dir tape.now result }
{
    let m = session.tape_len as usize;
    if tape.len() <= m {
        return Err(Full::Tape);
    }
    Ok(Arrival {
        node,
        dir,
        log_len: session.log_len,
        tape_len: session.tape_len + 1,
        carried: 0,
    })
}

// Rules 2 and 5. The bullet on top of the tape goes: its word 0 is left above the top.
fn pop_bullet(session: Session, node: u32, dir: Dir) -> Arrival
    requires { 1 ≤ session.tape_len }
    ensures { BulletGoes session node dir result }
{
    Arrival {
        node,
        dir,
        log_len: session.log_len,
        tape_len: session.tape_len - 1,
        carried: 0,
    }
}

// Where lists of `top` and `end` words end once k words went from the one to the other, with `own` words made above them.
fn list_ends(k: usize, top: u32, end: u32, own: u32) -> ListEnds
    requires { EndsFit k top end own }
    ensures { result ≡ ends_after k top end own }
{
    let words = k as u32;
    ListEnds {
        left: top - words,
        came: end + words + own,
        carried: words,
    }
}

// Rules 4, 6 and 8. The next `owed` entries below index `top` of one list's slice move onto the other list, which has `end` words, if its slice has room for them.
fn move_onto(
    tree: &Tree<'_>,
    from: &mut [u32],
    top: u32,
    owed: u32,
    to: &mut [u32],
    end: u32,
) -> Option<ListEnds>
    requires { ListIn from.old top × (owed ≤ longest) × ListIn to.old end }
    ensures { MovedOnto (tree_table tree.now) from.old top owed to.old end result
        from.new to.new }
{
    let m = end as usize;
    let k = move_entries(tree, from, top as usize, owed as usize, &mut to[m..])?;
    Some(list_ends(k, top, end, 0))
}

// Rule 3. To the binder, up; the top arity-many entries leave the log, and the entry of the variable and these goes onto the tape. The variable's own word is made there, not carried.
fn rule_3(
    tree: &Tree<'_>,
    at: Session,
    to: u32,
    log: &mut [u32],
    tape: &mut [u32],
) -> Result<Arrival, Full>
    requires { Fitting tree.now.words tree.now.n at log.old tape.old (Rule.Three to) }
    ensures { Steps tree.now.words tree.now.n at log.old tape.old result log.new tape.new }
{
    let l = at.log_len as usize;
    let m = at.tape_len as usize;
    let owed = arity(tree, at.node) as usize;
    let k = make_entry(tree, log, l, owed, at.node, &mut tape[m..]).ok_or(Full::Tape)?;
    let ends = list_ends(k, at.log_len, at.tape_len, 1);
    Ok(ends.onto_tape(to, Dir::Up))
}

// Rule 4. To the entry's variable, up; the entries inside it go onto the log in their order, and its own word leaves the tape, carried nowhere.
fn rule_4(
    tree: &Tree<'_>,
    at: Session,
    to: u32,
    log: &mut [u32],
    tape: &mut [u32],
) -> Result<Arrival, Full>
    requires { Fitting tree.now.words tree.now.n at log.old tape.old (Rule.Four to) }
    ensures { Steps tree.now.words tree.now.n at log.old tape.old result log.new tape.new }
{
    let under = at.tape_len - 1;
    let owed = arity(tree, to);
    let ends = move_onto(tree, tape, under, owed, log, at.log_len).ok_or(Full::Log)?;
    tape[under as usize] = 0;
    Ok(ends.onto_log(to, Dir::Up))
}

// One step by a rule that fits, if the slices have room for it.
pub(crate) fn step(
    tree: &Tree<'_>,
    session: Session,
    log: &mut [u32],
    tape: &mut [u32],
    rule: Rule,
) -> Result<Arrival, Full>
    requires { Fitting tree.now.words tree.now.n session log.old tape.old rule }
    ensures { Steps tree.now.words tree.now.n session log.old tape.old result log.new tape.new }
{
    match rule {
        Rule::One(node) => push_bullet(session, node, Dir::Down, &tape[..]),
        Rule::Two(node) => Ok(pop_bullet(session, node, Dir::Down)),
        Rule::Three(node) => rule_3(tree, session, node, log, tape),
        Rule::Four(node) => rule_4(tree, session, node, log, tape),
        Rule::Five(node) => Ok(pop_bullet(session, node, Dir::Up)),
        Rule::Six(node) => {
            let ends = move_onto(tree, tape, session.tape_len, 1, log, session.log_len);
            Ok(ends.ok_or(Full::Log)?.onto_log(node, Dir::Down))
        }
        Rule::Seven(node) => push_bullet(session, node, Dir::Up, &tape[..]),
        Rule::Eight(node) => {
            let ends = move_onto(tree, log, session.log_len, 1, tape, session.tape_len);
            Ok(ends.ok_or(Full::Tape)?.onto_tape(node, Dir::Down))
        }
    }
}
