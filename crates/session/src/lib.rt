// Sessions on a term: open, forward, back and go-to (document 01, "A session and its calls"), the top entry of log or tape (document 02, change 1), back and forward to a
// chosen node in a chosen direction (document 02, change 5), and a look ahead and the way by what it handed out (document 02, change 10).
#![tactic(auto)]

ghost use Rattle.std.specs.Prelude.{◌≡◌};
ghost use Rattle.calls.specs.Calls.{open_of, wind_of, forward_of, back_of, go_to_of};
ghost use Rattle.calls.specs.Looks.{look_of, go_of};
ghost use Rattle.calls.specs.Top.{as_told, top_of, seen};
ghost use Rattle.calls.specs.Visits.{spot, back_to_of, forward_to_of};
ghost use Rattle.session.specs.Types.{opening_meant, outcome_meant, look_meant, way_meant, which_meant, dir_meant, lent, part_meant, part_start, word_ptr};

mod check;
mod choice;
mod extent;
mod looks;
mod mover;
mod part;
mod rules;
mod visits;
mod weight;
mod winding;

use check::{test_call, test_go, test_lent, test_visit};
pub use looks::Look;
use looks::look_ahead;
use part::top_place;
use std::fmt;
use term::Refusal;
use visits::seek_back;
use winding::{Way, seek, wind};

// Which way the token goes.
#[derive(Clone, Copy, Debug, PartialEq, Eq)]
pub enum Dir {
    Down,
    Up,
}

// Where the token stands: its node and direction, the steps from the start, the lengths in words of log and tape, and how many of the steps changed direction (document 02, change 9).
#[derive(Clone, Copy, Debug, PartialEq, Eq)]
pub struct Session {
    pub node: u32,
    pub dir: Dir,
    pub position: u32,
    pub log_len: u32,
    pub tape_len: u32,
    pub turns: u32,
}

// Why a call ended. Found and None are said by the calls to a node alone.
#[derive(Clone, Copy, Debug, PartialEq, Eq)]
pub enum Stop {
    Spent,
    Answer(u32),
    Jam,
    Far,
    Start,
    LogFull,
    TapeFull,
    Found,
    None,
}

// Document 01, of the last line of `winder`: "the stop's name (spent, answer, jam, far, log full, tape full) and, for an answer, its node"; start, found and none likewise.
impl fmt::Display for Stop {
    fn fmt<W: fmt::Write>(&self, f: &mut fmt::Formatter<W>) -> fmt::Result {
        match self {
            Stop::Spent => write!(f, "spent"),
            Stop::Answer(node) => write!(f, "answer {node}"),
            Stop::Jam => write!(f, "jam"),
            Stop::Far => write!(f, "far"),
            Stop::Start => write!(f, "start"),
            Stop::LogFull => write!(f, "log full"),
            Stop::TapeFull => write!(f, "tape full"),
            Stop::Found => write!(f, "found"),
            Stop::None => write!(f, "none"),
        }
    }
}

// One of the two lists that the token carries.
#[derive(Clone, Copy, Debug, PartialEq, Eq)]
pub enum Which {
    Log,
    Tape,
}

impl Which {
    // The one of two that is told.
    fn choose<T: Copy>(self, log: T, tape: T) -> T
        ensures { result ≡ as_told (which_meant self) log tape }
    {
        match self {
            Which::Log => log,
            Which::Tape => tape,
        }
    }
}

// What the calls that wind answer. The peak is the greatest weight over the states stood in, in bits (document 02, change 2); carried is how many words the steps moved
// between log and tape (document 02, change 6).
#[derive(Clone, Copy, Debug, PartialEq, Eq)]
pub struct Outcome {
    pub session: Session,
    pub steps: u32,
    pub stop: Stop,
    pub peak: u32,
    pub carried: u64,
}

// Open: the start state at position 0, and both slices zeroed; or refused, with no word written.
pub fn open(table: &[u16], n: u32, log: &mut [u32], tape: &mut [u32]) -> Result<Session, Refusal>
    ensures { opening_meant result log.new tape.new
        ≡ open_of table.now n log.old tape.old }
{
    let _tree = test_lent(table, n, log, tape)?;
    log.fill(0);
    tape.fill(0);
    Ok(Session {
        node: 1,
        dir: Dir::Down,
        position: 0,
        log_len: 0,
        tape_len: 0,
        turns: 0,
    })
}

// A call by a count, forward or back.
fn call(
    table: &[u16],
    n: u32,
    session: Session,
    log: &mut [u32],
    tape: &mut [u32],
    way: Way,
    count: u32,
) -> Result<Outcome, Refusal>
    ensures { outcome_meant session result log.new tape.new
        ≡ wind_of (way_meant way) (lent table.now n session log.old tape.old) count }
{
    let tree = test_call(table, n, session, log, tape)?;
    Ok(wind(&tree, session, log, tape, way, count))
}

// To a position: forward or back by the difference.
pub fn go_to(
    table: &[u16],
    n: u32,
    session: Session,
    log: &mut [u32],
    tape: &mut [u32],
    position: u32,
) -> Result<Outcome, Refusal>
    ensures { outcome_meant session result log.new tape.new
        ≡ go_to_of (lent table.now n session log.old tape.old) position }
{
    let here = session.position;
    if here <= position {
        forward(table, n, session, log, tape, position - here)
    } else {
        back(table, n, session, log, tape, here - position)
    }
}

// Forward by a count: steps of the plain machine until a stop.
pub fn forward(
    table: &[u16],
    n: u32,
    session: Session,
    log: &mut [u32],
    tape: &mut [u32],
    count: u32,
) -> Result<Outcome, Refusal>
    ensures { outcome_meant session result log.new tape.new
        ≡ forward_of (lent table.now n session log.old tape.old) count }
{
    call(table, n, session, log, tape, Way::Forward, count)
}

// Back by a count: each step is turned, made and turned again.
pub fn back(
    table: &[u16],
    n: u32,
    session: Session,
    log: &mut [u32],
    tape: &mut [u32],
    count: u32,
) -> Result<Outcome, Refusal>
    ensures { outcome_meant session result log.new tape.new
        ≡ back_of (lent table.now n session log.old tape.old) count }
{
    call(table, n, session, log, tape, Way::Back, count)
}

// Back to the last earlier position at which the token stood on the node in the direction, found; or none, with the session and every word as given. The present position is not one.
pub fn back_to(
    table: &[u16],
    n: u32,
    session: Session,
    log: &mut [u32],
    tape: &mut [u32],
    node: u32,
    dir: Dir,
) -> Result<Outcome, Refusal>
    ensures { outcome_meant session result log.new tape.new
        ≡ back_to_of (lent table.now n session log.old tape.old) (spot node (dir_meant dir)) }
{
    let tree = test_visit(table, n, session, log, tape, node)?;
    Ok(seek_back(&tree, session, log, tape, node, dir))
}

// Forward to the first later position at which the token stands on the node in the direction, if forward by the count reaches one; else as forward by the count.
pub fn forward_to(
    table: &[u16],
    n: u32,
    session: Session,
    log: &mut [u32],
    tape: &mut [u32],
    node: u32,
    dir: Dir,
    count: u32,
) -> Result<Outcome, Refusal>
    ensures { outcome_meant session result log.new tape.new
        ≡ forward_to_of (lent table.now n session log.old tape.old) (spot node (dir_meant dir)) count }
{
    let tree = test_visit(table, n, session, log, tape, node)?;
    Ok(seek(&tree, session, log, tape, Way::Forward, count, node, dir))
}

// A look: what forward by the count would give, and the position and the count that it looked from. The session is handed over by value and not answered, and every word is as given.
pub fn look(
    table: &[u16],
    n: u32,
    session: Session,
    log: &mut [u32],
    tape: &mut [u32],
    count: u32,
) -> Result<Look, Refusal>
    ensures { look_meant result log.new tape.new
        ≡ look_of (lent table.now n session log.old tape.old) count }
{
    let tree = test_call(table, n, session, log, tape)?;
    Ok(look_ahead(&tree, session, log, tape, count))
}

// By the position and the count that a look handed out: forward by the count, where the session is at the position, and else refused.
pub fn go(
    table: &[u16],
    n: u32,
    session: Session,
    log: &mut [u32],
    tape: &mut [u32],
    position: u32,
    count: u32,
) -> Result<Outcome, Refusal>
    ensures { outcome_meant session result log.new tape.new
        ≡ go_of (lent table.now n session log.old tape.old) position count }
{
    let tree = test_go(table, n, session, log, tape, position)?;
    Ok(wind(&tree, session, log, tape, Way::Forward, count))
}

// The top entry of log or tape, or the bullet on top of the tape, as that part of the lent slice itself, its top word last. Nothing is written. The clause `shown` fixes the words and
// the number, `there` the address, so that equal words elsewhere do not do.
pub fn top<'a>(
    table: &[u16],
    n: u32,
    session: Session,
    log: &'a [u32],
    tape: &'a [u32],
    which: Which,
) -> Result<&'a [u32], Refusal>
    ensures shown { part_meant result
        ≡ seen (top_of (which_meant which) (lent table.now n session log.now tape.now)) }
    ensures there { part_start result (as_told (which_meant which) log.entry.ref_ptr tape.entry.ref_ptr)
        ≡ word_ptr (as_told (which_meant which) log.entry.ref_ptr tape.entry.ref_ptr)
        (top_of (which_meant which) (lent table.now n session log.now tape.now)).offset }
{
    let place = top_place(table, n, session, log, tape, which)?;
    let words = which.choose(log, tape);
    Ok(&words[place.offset..place.offset + place.size])
}
