// The calls on a session that the script makes. Each shows its answer and both slices after it.
use crate::command::Move;
use crate::desk::{Desk, NO_SESSION};
use crate::show::{show_outcome, show_refusal, show_session, show_told, show_words};
use session::{Outcome, Which, back, back_to, forward, forward_to, go, go_to, look, open, top};
use term::Refusal;

fn show_slices(rt: &impl Print, desk: &Desk) {
    show_words(rt, " L", desk.log.words());
    show_words(rt, " T", desk.tape.words());
}

// The session is then the one answered, or none.
pub(crate) fn show_open(rt: &impl Print, desk: &mut Desk) {
    let answer = open(
        desk.table.lent(),
        desk.n,
        desk.log.lent_mut(),
        desk.tape.lent_mut(),
    );
    desk.session = answer.unwrap_or(NO_SESSION);
    show_session(rt, desk.session);
    show_refusal(rt, answer);
    show_slices(rt, desk);
}

// Winds the session. It stays as it was where the move is refused.
fn wound(desk: &mut Desk, by: Move) -> Result<Outcome, Refusal> {
    let table = desk.table.lent();
    let n = desk.n;
    let s = desk.session;
    let log = desk.log.lent_mut();
    let tape = desk.tape.lent_mut();
    let answer = match by {
        Move::Forward(count) => forward(table, n, s, log, tape, count),
        Move::Back(count) => back(table, n, s, log, tape, count),
        Move::GoTo(position) => go_to(table, n, s, log, tape, position),
        Move::BackTo(node, dir) => back_to(table, n, s, log, tape, node, dir),
        Move::ForwardTo(node, dir, count) => forward_to(table, n, s, log, tape, node, dir, count),
        Move::Go(position, count) => go(table, n, s, log, tape, position, count),
    };
    let outcome = answer?;
    desk.session = outcome.session;
    Ok(outcome)
}

pub(crate) fn show_move(rt: &impl Print, by: Move, desk: &mut Desk) {
    let answer = wound(desk, by);
    show_outcome(rt, desk.session, answer);
    show_slices(rt, desk);
}

// So many moves of one step each; the last answer.
pub(crate) fn show_walk(rt: &impl Print, count: u32, desk: &mut Desk) {
    let answer = walked(desk, Move::Forward, count, |_| {});
    show_outcome(rt, desk.session, answer);
    show_slices(rt, desk);
}

// The same on the way back, and how many of the states agree.
pub(crate) fn show_walk_back(rt: &impl Print, count: u32, desk: &mut Desk) {
    let mut agreed = 0u32;
    let answer = walked(desk, Move::Back, count, |desk| {
        agreed = agreed.wrapping_add(u32::from(agrees(desk)));
    });
    show_outcome(rt, desk.session, answer);
    let _agreed = print!(rt; " agreed {agreed}");
    show_slices(rt, desk);
}

// So many moves of one step each, after one of none; the last answer. After each of them the desk is shown to `see`.
fn walked<M: Fn(u32) -> Move, F: FnMut(&Desk)>(
    desk: &mut Desk,
    by: M,
    count: u32,
    mut see: F,
) -> Result<Outcome, Refusal>
    requires by { M.IsAlwaysCallable by }
    requires see { F.IsAlwaysCallable see }
{
    let mut answer = wound(desk, by(0));
    see(desk);
    for _ in 0..count {
        answer = wound(desk, by(1));
        see(desk);
    }
    answer
}

// Whether the session, on slices of 64 words, is the one opened afresh on others and wound to its position in one call, word for word.
fn agrees(desk: &Desk) -> bool {
    let mut log = [5u32; 64];
    let mut tape = [5u32; 64];
    let table = desk.table.lent();
    let n = desk.n;
    let Ok(first) = open(table, n, &mut log, &mut tape) else {
        return false;
    };
    let to = desk.session.position;
    let Ok(other) = forward(table, n, first, &mut log, &mut tape, to) else {
        return false;
    };
    other.session == desk.session
        && log.as_slice() == desk.log.lent()
        && tape.as_slice() == desk.tape.lent()
}

// Looks ahead, and shows what the look tells, with both slices before it and after it.
pub(crate) fn show_look(rt: &impl Print, count: u32, desk: &mut Desk) {
    show_slices(rt, desk);
    let s = desk.session;
    let answer = look(
        desk.table.lent(),
        desk.n,
        s,
        desk.log.lent_mut(),
        desk.tape.lent_mut(),
        count,
    );
    show_told(rt, answer);
    show_slices(rt, desk);
}

// Asks for the top entry of log or tape, and shows the answer.
pub(crate) fn show_top(rt: &impl Print, which: Which, desk: &Desk) {
    let answer = top(
        desk.table.lent(),
        desk.n,
        desk.session,
        desk.log.lent(),
        desk.tape.lent(),
        which,
    );
    show_refusal(rt, answer);
    show_words(rt, " part", answer.unwrap_or(&[]));
    show_slices(rt, desk);
}
