// The steps of a call: forward or back until a stop, or until the token stands on a chosen node in a chosen direction.
ghost use Rattle.std.specs.Prelude.{◌≡◌, ◌+◌, ◌*◌, max, ◌≤◌, ◌<◌, length};
ghost use Rattle.machine.specs.Machine.{turned as other_dir};
ghost use Rattle.machine.specs.Turns.{turn_between};
ghost use Rattle.calls.specs.Calls.{longest};
ghost use Rattle.calls.specs.Visits.{spot};
ghost use Rattle.session.specs.Types.{dir_meant, session_meant, way_meant};
ghost use Rattle.session.specs.Steps.{Ready, arrived_at};
ghost use Rattle.session.specs.Passes.{turned_session, facing_session, HasNext, session_after, TellsAnswer, TellsEnd, end_stop, is_far, rule_dir, CanTurn, turns_left, TellsBefore, Passes, begun_at, lengthened_to, halted_by, Winds};
ghost use Rattle.session.specs.Visits.{Seeks};
ghost use Rattle.session.specs.Weight.{Weighable};

use crate::choice::{Rule, chosen};
use crate::rules::{Arrival, step};
use crate::visits::stands_on;
use crate::weight::{bullets_after, bullets_in, weight};
use crate::{Dir, Outcome, Session, Stop};
use term::{Kind, Tree};

// Which way a call goes. A value, and no function handed in: the contracts speak of it (`way_meant`).
#[derive(Clone, Copy)]
pub(crate) enum Way {
    Forward,
    Back,
}

// One pass of the loop: the session after a step, the rule that it was made by and how many words it carried.
#[derive(Clone, Copy)]
pub(crate) struct Passed {
    pub(crate) session: Session,
    pub(crate) rule: Rule,
    pub(crate) carried: u32,
}

impl Dir {
    fn turned(self) -> Dir
        ensures { dir_meant result ≡ other_dir (dir_meant self) }
    {
        match self {
            Dir::Down => Dir::Up,
            Dir::Up => Dir::Down,
        }
    }
}

impl Session {
    // The session with its direction turned.
    fn turned(self) -> Session
        ensures { session_meant result ≡ turned_session (session_meant self) }
    {
        Session {
            dir: self.dir.turned(),
            ..self
        }
    }

    // What a step is made from. A step back is: turn the direction, make one step, turn it again.
    fn facing(self, way: Way) -> Session
        ensures { session_meant result ≡ facing_session (way_meant way) (session_meant self) }
    {
        match way {
            Way::Forward => self,
            Way::Back => self.turned(),
        }
    }
}

// The session after a step, forward or back, with so many turns.
fn after_step(session: Session, to: Arrival, way: Way, turns: u32) -> Session
    requires { HasNext (way_meant way) session.position }
    ensures { session_meant result ≡ session_after (way_meant way) turns (session_meant (arrived_at session.position session.turns to)) }
{
    let (dir, position) = match way {
        Way::Forward => (to.dir, session.position + 1),
        Way::Back => (to.dir.turned(), session.position - 1),
    };
    Session {
        node: to.node,
        dir,
        position,
        log_len: to.log_len,
        tape_len: to.tape_len,
        turns,
    }
}

// Whether the token stands at the answer: down at an abstraction with an empty tape.
fn is_answer(tree: &Tree<'_>, session: Session) -> bool
    ensures { TellsAnswer tree.now.words tree.now.n session result }
{
    match session.dir {
        Dir::Down if session.tape_len == 0 => { tree.kind(session.node) == Some(Kind::Abstraction) }
        _ => false,
    }
}

// Whether a walk has come to its end: forward to the answer, back to the start.
fn is_end(tree: &Tree<'_>, session: Session, way: Way) -> bool
    ensures { TellsEnd tree.now.words tree.now.n session (way_meant way) result }
{
    match way {
        Way::Forward => is_answer(tree, session),
        Way::Back => session.position == 0,
    }
}

// The stop there.
fn end_stop(session: Session, way: Way) -> Stop
    ensures { result ≡ end_stop (way_meant way) session }
{
    match way {
        Way::Forward => Stop::Answer(session.node),
        Way::Back => Stop::Start,
    }
}

// Whether there is no position after the next step: forward from the greatest.
fn is_far(session: Session, way: Way) -> bool
    ensures { result ≡ is_far (way_meant way) session.position }
{
    match way {
        Way::Forward => session.position == u32::MAX,
        Way::Back => false,
    }
}

// The direction in which a rule leads.
fn rule_dir(rule: Rule) -> Dir
    ensures { dir_meant result ≡ rule_dir rule }
{
    match rule {
        Rule::One(_) | Rule::Two(_) | Rule::Six(_) | Rule::Eight(_) => Dir::Down,
        Rule::Three(_) | Rule::Four(_) | Rule::Five(_) | Rule::Seven(_) => Dir::Up,
    }
}

// How many turns a step from one direction to another has.
fn turn_between(from: Dir, to: Dir) -> u32
    ensures { result ≡ turn_between (dir_meant from) (dir_meant to) }
{
    u32::from(from != to)
}

// The turns after a step that has so many: forward they are added, and back they are taken off, where that does not leave turns below 0, or above the
// new position; it is a jam there.
fn with_turns(session: Session, way: Way, turn: u32) -> Result<u32, Stop>
    requires { CanTurn (way_meant way) session turn }
    ensures { result ≡ turns_left (way_meant way) session turn }
{
    match way {
        Way::Forward => Ok(session.turns + turn),
        Way::Back => {
            if session.turns < turn {
                return Err(Stop::Jam);
            }
            let left = session.turns - turn;
            if left < session.position {
                Ok(left)
            } else {
                Err(Stop::Jam)
            }
        }
    }
}

// The rule that a step is made by and the turns after it; or what ends a walk before it, the count not used up, but for a full slice, which the step finds. The tests are in the
// order of document 01; far is said forward alone, and the jam of the turns back alone, so that these two may be asked in either order. The rule is chosen in one place
// for both ways, so that the compiler puts the choice into the loop.
fn before_step(
    tree: &Tree<'_>,
    session: Session,
    tape: &[u32],
    way: Way,
) -> Result<(Rule, u32), Stop>
    requires { (session.tape_len ≤ length tape.now) × (session.turns ≤ session.position) }
    ensures { TellsBefore tree.now.words tree.now.n session tape.now (way_meant way) result }
{
    if is_end(tree, session, way) {
        return Err(end_stop(session, way));
    }
    let about = session.facing(way);
    let rule = chosen(tree, about, tape).ok_or(Stop::Jam)?;
    if is_far(session, way) {
        return Err(Stop::Far);
    }
    let from = about.dir;
    let turn = turn_between(from, rule_dir(rule));
    let turns = with_turns(session, way, turn)?;
    Ok((rule, turns))
}

// One pass, the count not used up; or the stop. Log and tape are two parameters here and everywhere: in a struct of two `&mut` slices a callee might put others, and each contract would
// have to say that it did not; what only reads them takes them as its caller has them.
fn one_pass(
    tree: &Tree<'_>,
    session: Session,
    log: &mut [u32],
    tape: &mut [u32],
    way: Way,
) -> Result<Passed, Stop>
    requires { Ready tree.now.words tree.now.n session log.old tape.old }
    ensures { Passes tree.now.words tree.now.n session log.old tape.old way result log.new tape.new }
{
    let (rule, turns) = before_step(tree, session, &tape[..], way)?;
    let about = session.facing(way);
    let to = step(tree, about, log, tape, rule)?;
    let next = after_step(session, to, way, turns);
    Ok(Passed {
        session: next,
        rule,
        carried: to.carried,
    })
}

// The outcome of no step, with so many bullets on the tape.
fn begun(tree: &Tree<'_>, session: Session, bullets: u32) -> Outcome
    requires { Weighable tree.now.n session bullets }
    ensures { result ≡ begun_at tree.now.n session bullets }
{
    let peak = weight(tree, session, bullets);
    Outcome {
        session,
        steps: 0,
        stop: Stop::Spent,
        peak,
        carried: 0,
    }
}

// The outcome with one step more, which carried so many words, to so many bullets on the tape. A step carries no more than a slice holds, so that the sum fits.
fn lengthened(run: Outcome, tree: &Tree<'_>, to: Session, bullets: u32, words: u32) -> Outcome
    requires { Weighable tree.now.n to bullets × (run.steps < 4294967295) × (run.carried ≤ longest * run.steps) × (words ≤ longest) }
    ensures { result ≡ lengthened_to run tree.now.n to bullets words }
{
    let steps = run.steps + 1;
    let peak = run.peak.max(weight(tree, to, bullets));
    let carried = run.carried + u64::from(words);
    Outcome {
        session: to,
        steps,
        stop: Stop::Spent,
        peak,
        carried,
    }
}

// The outcome with another stop than spent.
pub(crate) fn halted(run: Outcome, stop: Stop) -> Outcome
    ensures { result ≡ halted_by run stop }
{
    Outcome { stop, ..run }
}

// At most `count` passes, the peak over the states stood in and the words carried; found as soon as a step leads to the node in the direction. Where the token stands at first is not looked at. The bullets
// are counted once, and then kept count of.
pub(crate) fn seek(
    tree: &Tree<'_>,
    session: Session,
    log: &mut [u32],
    tape: &mut [u32],
    way: Way,
    count: u32,
    node: u32,
    dir: Dir,
) -> Outcome
    requires { Ready tree.now.words tree.now.n session log.old tape.old }
    ensures { Seeks tree.now.words tree.now.n session log.old tape.old way count (spot node (dir_meant dir)) result
        log.new tape.new }
{
    let mut bullets = bullets_in(&tape[..session.tape_len as usize]);
    let mut run = begun(tree, session, bullets);
    for _step in 0..count {
        let here = run.session;
        match one_pass(tree, here, log, tape, way) {
            Err(stop) => return halted(run, stop),
            Ok(pass) => {
                let to = pass.session;
                bullets = bullets_after(pass.rule, bullets);
                run = lengthened(run, tree, to, bullets, pass.carried);
                if stands_on(to, node, dir) {
                    return halted(run, Stop::Found);
                }
            }
        }
    }
    run
}

// At most `count` passes: a search for node 0, on which the token never stands.
pub(crate) fn wind(
    tree: &Tree<'_>,
    session: Session,
    log: &mut [u32],
    tape: &mut [u32],
    way: Way,
    count: u32,
) -> Outcome
    requires { Ready tree.now.words tree.now.n session log.old tape.old }
    ensures { Winds tree.now.words tree.now.n session log.old tape.old way count result
        log.new tape.new }
{
    seek(tree, session, log, tape, way, count, 0, Dir::Down)
}
