// Runs the script of cases on standard input, a command to a line. What it must print is worked out apart from it (tools/reference.py).
#![tactic(auto)]

mod command;
mod desk;
mod dialects;
mod lent;
mod moves;
mod runs;
mod show;
mod texts;
mod words;
mod written;

use command::{Call, Command};
use desk::Desk;
use lent::Text;
use moves::{show_look, show_move, show_open, show_top, show_walk, show_walk_back};
use runs::show_run;
use show::{show, show_wrong};
use texts::{show_on_text, show_read_back};
use written::show_written;

fn show_accept(rt: &impl Print, desk: &Desk) {
    let accepted = u32::from(term::accepts(desk.table.lent(), desk.n));
    let _accepted = print!(rt; " {accepted}");
}

// Makes a call, and shows its answer.
fn show_call(rt: &impl Print, call: Call, desk: &mut Desk) {
    match call {
        Call::Accept => show_accept(rt, desk),
        Call::Write(which, room) => {
            let table = desk.table.lent();
            let n = desk.n;
            show_written(rt, room, |out| which.write(table, n, out));
        }
        Call::ReadBack(which) => show_read_back(rt, which, desk),
        Call::Open => show_open(rt, desk),
        Call::Move(by) => show_move(rt, by, desk),
        Call::Walk(count) => show_walk(rt, count, desk),
        Call::WalkBack(count) => show_walk_back(rt, count, desk),
        Call::Look(count) => show_look(rt, count, desk),
        Call::Top(which) => show_top(rt, which, desk),
        Call::Run(count) => show_run(rt, count, desk),
    }
}

// Does what a line says; none where it is no command, or asks for too much. A call prints a line, which begins with its name.
fn obeyed<'a>(rt: &impl Print, desk: &mut Desk<'a>, line: &'a [u8]) -> Option<()> {
    match Command::of(line)? {
        Command::Nothing => {}
        Command::Text(pieces) => desk.text = pieces,
        Command::Set(setting) => desk.set(setting)?,
        Command::OnText(call, name) => {
            let text = Text::of(desk.text)?;
            show(rt, name);
            show_on_text(rt, call, text.bytes(), desk);
            show(rt, b"\n");
        }
        Command::Call(call, name) => {
            show(rt, name);
            show_call(rt, call, desk);
            show(rt, b"\n");
        }
    }
    Some(())
}

fn main(rt: HostRuntime) {
    // One byte more than a script may have, so that a longer one shows.
    let mut script = [0u8; 131072];
    let got = input::fill(&mut rt.stdin(), &mut script);
    if 131071 < got {
        show_wrong(&rt, b"the script is too long");
        return;
    }
    let mut desk = Desk::cleared();
    for line in script[..got].split(|b| *b == b'\n') {
        if obeyed(&rt, &mut desk, line).is_none() {
            show_wrong(&rt, line);
        }
    }
}
