// The program `winder` of document 01: reads a term from standard input and prints each state of its walk.
#![tactic(auto)]

use line::Lines;
use session::{Session, Stop, forward, open};
use std::io;
use term::Refusal;

mod line;

fn main(rt: HostRuntime) {
    // One byte more than a text may have, so that a longer one shows.
    let mut text = [0u8; 3001];
    let got = input::fill(&mut rt.stdin(), &mut text);
    let mut table = [0u16; 15000];
    let mut log = [0u32; 1024];
    let mut tape = [0u32; 1024];
    let mut lines = Lines::new();
    let _written = match begun(&text[..got], &mut table, &mut log, &mut tape) {
        Ok((n, first)) => print_walk(&rt, &mut lines, &table, n, first, &mut log, &mut tape),
        Err(refusal) => lines.end(&rt, &refusal),
    };
}

// The text in the table, with how many nodes it has, and the session at the start.
fn begun(
    text: &[u8],
    table: &mut [u16],
    log: &mut [u32],
    tape: &mut [u32],
) -> Result<(u32, Session), Refusal> {
    let n = reader::read(text, table)?;
    let first = open(&table[..], n, log, tape)?;
    Ok((n, first))
}

// At most 10,000 steps, a state and a step at a time. A write that fails ends the walk.
fn print_walk(
    rt: &impl Print,
    lines: &mut Lines,
    table: &[u16],
    n: u32,
    first: Session,
    log: &mut [u32],
    tape: &mut [u32],
) -> io::Result<()> {
    let mut s = first;
    for _ in 0..10000 {
        lines.put_state(s, &log[..], &tape[..]);
        let o = match forward(table, n, s, log, tape, 1) {
            Ok(o) => o,
            Err(refusal) => return lines.end(rt, &refusal),
        };
        if o.stop != Stop::Spent {
            return lines.end(rt, &o.stop);
        }
        s = o.session;
        lines.make_room(rt)?;
    }
    lines.put_state(s, &log[..], &tape[..]);
    lines.end(rt, &Stop::Spent)
}
