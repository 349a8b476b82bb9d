// What the program prints: names, numbers, sessions, stops and words.
use session::{Dir, Look, Outcome, Session};
use std::fmt;
use term::Refusal;

pub(crate) fn show(rt: &impl Print, bytes: &[u8]) {
    let _whole = rt.write_all(bytes);
}

// A line that is no command, or one that asks for too much.
pub(crate) fn show_wrong(rt: &impl Print, line: &[u8]) {
    show(rt, b"? ");
    show(rt, line);
    show(rt, b"\n");
}

// A label and words, in order: of more than three in a row that are the same, one and how many.
pub(crate) fn show_words<T: Copy + PartialEq + fmt::Display>(
    rt: &impl Print,
    label: &str,
    words: &[T],
) {
    let _label = rt.print(label);
    for run in words.chunk_by(|a, b| a == b) {
        match run {
            [word, _, _, _, ..] => {
                let times = run.len();
                let _run = print!(rt; " {word}*{times}");
            }
            _ => {
                for word in run {
                    let _word = print!(rt; " {word}");
                }
            }
        }
    }
}

// A refusal's number, and 0 where there is none.
pub(crate) fn show_refusal<T: Drop>(rt: &impl Print, answer: Result<T, Refusal>) {
    let refusal = answer.err().map_or(0, |refusal| refusal.number());
    let _refusal = print!(rt; " refusal {refusal}");
}

// What a call answered: a number, which is 0 where it is refused, and the refusal.
pub(crate) fn show_answer(rt: &impl Print, label: &str, answer: Result<u32, Refusal>) {
    let number = answer.unwrap_or(0);
    let _number = print!(rt; " {label} {number}");
    show_refusal(rt, answer);
}

// Node, direction, position, the lengths of log and tape, and the turns.
pub(crate) fn show_session(rt: &impl Print, s: Session) {
    let dir = match s.dir {
        Dir::Down => 'd',
        Dir::Up => 'u',
    };
    let _session = print!(rt;
        " {} {dir} {} {} {} {}",
        s.node, s.position, s.log_len, s.tape_len, s.turns
    );
}

// What a walk came to, or would.
fn show_results<D: fmt::Display + Drop>(
    rt: &impl Print,
    steps: u32,
    end: D,
    peak: u32,
    carried: u64,
) {
    let _results = print!(rt; " steps {steps} {end} peak {peak} carried {carried}");
}

// What a call that winds answered: the session after it, the steps, the stop, the peak and the words carried; of a refusal the session given, and no step.
pub(crate) fn show_outcome(rt: &impl Print, session: Session, answer: Result<Outcome, Refusal>) {
    show_session(rt, session);
    match answer {
        Ok(o) => show_results(rt, o.steps, o.stop, o.peak, o.carried),
        Err(refusal) => show_results(rt, 0, refusal, 0, 0),
    }
}

// What a look tells, and the position and the count that it hands out; of a refusal nothing but 0.
pub(crate) fn show_told(rt: &impl Print, answer: Result<Look, Refusal>) {
    let (position, count) = match answer {
        Ok(l) => {
            show_results(rt, l.steps, l.stop, l.peak, l.carried);
            (l.position, l.count)
        }
        Err(refusal) => {
            show_results(rt, 0, refusal, 0, 0);
            (0, 0)
        }
    };
    let _handed = print!(rt; " position {position} count {count}");
}
