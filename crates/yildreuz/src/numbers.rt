// Directions, sessions, stops, outcomes and looks in numbers, and a host's numbers as a session, and as a node in a direction. The codes are those of C; functions, and no From or
// TryFrom, since both types of each are those of other crates.
ghost use Rattle.std.specs.Prelude.{◌≡◌, List, ℕ};
ghost use Rattle.session.specs.declared.Session.{Session};
ghost use Rattle.session.specs.Types.{dir_meant, session_meant, stop_meant, opening_meant, outcome_meant, look_meant};
ghost use Rattle.face.specs.Numbers.{dir_number, session_numbers, stop_code, stop_value, spot_in};
ghost use Rattle.face.specs.Told.{open_told, look_told};
ghost use Rattle.yildreuz.specs.Given.{made_with, given_back};

use face::{HostLook, HostOpening, HostOutcome, HostSession};
use session::{Dir, Look, Outcome, Session, Stop};
use term::Refusal;

fn dir_number(dir: Dir) -> u32
    ensures { result ≡ dir_number (dir_meant dir) }
{
    match dir {
        Dir::Down => 0,
        Dir::Up => 1,
    }
}

pub(crate) fn session_numbers(s: Session) -> HostSession
    ensures { result ≡ session_numbers (session_meant s) }
{
    HostSession {
        node: s.node,
        direction: dir_number(s.dir),
        position: s.position,
        log_len: s.log_len,
        tape_len: s.tape_len,
        turns: s.turns,
    }
}

// A direction above 1 is none: the session then stands at node 0, where every call refuses it with 9, after 7 and 8.
pub(crate) fn made_with(s: HostSession) -> Session
    ensures { session_meant result ≡ made_with s }
{
    let node = if 1 < s.direction { 0 } else { s.node };
    let dir = if s.direction == 0 { Dir::Down } else { Dir::Up };
    Session {
        node: node,
        dir: dir,
        position: s.position,
        log_len: s.log_len,
        tape_len: s.tape_len,
        turns: s.turns,
    }
}

// A chosen direction above 1 is no direction: the node is then 0, which the calls to a node refuse with 12, after 9.
pub(crate) fn chosen_node(node: u32, direction: u32) -> u32
    ensures { result ≡ (spot_in node direction).node }
{
    if 1 < direction { 0 } else { node }
}

pub(crate) fn chosen_dir(direction: u32) -> Dir
    ensures { (i : ℕ) → dir_meant result ≡ (spot_in i direction).dir }
{
    if direction == 1 { Dir::Up } else { Dir::Down }
}

fn stop_code(stop: Stop) -> u32
    ensures { result ≡ stop_code (stop_meant stop) }
{
    match stop {
        Stop::Spent => 0,
        Stop::Answer(_) => 1,
        Stop::Jam => 2,
        Stop::Far => 3,
        Stop::Start => 4,
        Stop::LogFull => 5,
        Stop::TapeFull => 6,
        Stop::Found => 8,
        Stop::None => 9,
    }
}

// No stop has a second value.
fn stop_value(stop: Stop) -> u32
    ensures { result ≡ stop_value (stop_meant stop) }
{
    match stop {
        Stop::Answer(i) => i,
        _ => 0,
    }
}

pub(crate) fn opening_told(answer: Result<Session, Refusal>) -> HostOpening
    ensures { (ls ts : List ℕ) → (result, ls, ts) ≡ open_told (opening_meant answer ls ts) }
{
    match answer {
        Ok(first) => HostOpening {
            session: session_numbers(first),
            refusal: 0,
        },
        Err(refusal) => HostOpening {
            session: HostSession {
                node: 0,
                direction: 0,
                position: 0,
                log_len: 0,
                tape_len: 0,
                turns: 0,
            },
            refusal: refusal.number(),
        },
    }
}

// An outcome in numbers, of a call that was given these. A refusal, whose code is 7, gives them back: those that stand for no session too.
pub(crate) fn given_back(given: HostSession, answer: Result<Outcome, Refusal>) -> HostOutcome
    ensures { (s : Session) (ls ts : List ℕ) → (result, ls, ts) ≡ given_back given (outcome_meant s answer ls ts) }
{
    match answer {
        Ok(o) => HostOutcome {
            session: session_numbers(o.session),
            steps: o.steps,
            stop: stop_code(o.stop),
            value: stop_value(o.stop),
            value2: 0,
            peak: o.peak,
            carried: o.carried,
        },
        Err(refusal) => HostOutcome {
            session: given,
            steps: 0,
            stop: 7,
            value: refusal.number(),
            value2: 0,
            peak: 0,
            carried: 0,
        },
    }
}

pub(crate) fn look_told(answer: Result<Look, Refusal>) -> HostLook
    ensures { (ls ts : List ℕ) → (result, ls, ts) ≡ look_told (look_meant answer ls ts) }
{
    match answer {
        Ok(l) => HostLook {
            steps: l.steps,
            stop: stop_code(l.stop),
            value: stop_value(l.stop),
            value2: 0,
            peak: l.peak,
            carried: l.carried,
            position: l.position,
            count: l.count,
        },
        Err(refusal) => HostLook {
            steps: 0,
            stop: 7,
            value: refusal.number(),
            value2: 0,
            peak: 0,
            carried: 0,
            position: 0,
            count: 0,
        },
    }
}
