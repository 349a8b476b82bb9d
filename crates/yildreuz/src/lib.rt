// The readers, the writers, the conversions, the calls on a session and the run of Krivine's machine for a host in another language: `yildreuz_c` exports these functions, and host/yildreuz.h declares them, and the structs of `face`, in C.
#![tactic(auto)]

ghost use Rattle.std.specs.Prelude.{◌≡◌};
ghost use Rattle.text.specs.Dialects.{to_numbers_of, to_names_of};
ghost use Rattle.text.specs.NumberReading.{read_numbers_of};
ghost use Rattle.text.specs.Reading.{read_of};
ghost use Rattle.text.specs.Writing.{write_of, write_numbers_of};
ghost use Rattle.calls.specs.Calls.{open_of, forward_of, back_of, go_to_of};
ghost use Rattle.calls.specs.Visits.{back_to_of, forward_to_of};
ghost use Rattle.calls.specs.Looks.{go_of};
ghost use Rattle.kam.specs.Runs.{run_of};
ghost use Rattle.face.specs.Numbers.{spot_in};
ghost use Rattle.face.specs.Told.{read_told, write_told, open_told, called, look_called, top_called, run_told};

mod numbers;
mod parts;
mod runs;
mod texts;

use face::{
    HostLook, HostOpening, HostOutcome, HostPart, HostReading, HostRun, HostSession, HostWritten,
};
use numbers::{chosen_dir, chosen_node, given_back, look_told, made_with, opening_told};
use parts::part_of;
use runs::run_told;
use texts::{reading_told, written_told};

// The reader's answer, and the table slice as it leaves it; the same of the number dialect.
pub fn yildreuz_read(text: &[u8], table: &mut [u16]) -> HostReading
    ensures { (result, table.new) ≡ read_told (read_of text.now table.old) }
{
    reading_told(reader::read(text, table))
}

pub fn yildreuz_read_numbers(text: &[u8], table: &mut [u16]) -> HostReading
    ensures { (result, table.new) ≡ read_told (read_numbers_of text.now table.old) }
{
    reading_told(reader::read_numbers(text, table))
}

// The writer's answer, and the lent bytes as it leaves them; the same of the number dialect.
pub fn yildreuz_write(table: &[u16], n: u32, text: &mut [u8]) -> HostWritten
    ensures { (result, text.new) ≡ write_told (write_of table.now n text.old) }
{
    written_told(writer::write(table, n, text))
}

pub fn yildreuz_write_numbers(table: &[u16], n: u32, text: &mut [u8]) -> HostWritten
    ensures { (result, text.new) ≡ write_told (write_numbers_of table.now n text.old) }
{
    written_told(writer::write_numbers(table, n, text))
}

// A conversion's answer, and the lent bytes as it leaves them.
pub fn yildreuz_to_numbers(text: &[u8], out: &mut [u8]) -> HostWritten
    ensures { (result, out.new) ≡ write_told (to_numbers_of text.now out.old) }
{
    written_told(dialect::to_numbers(text, out))
}

pub fn yildreuz_to_names(text: &[u8], out: &mut [u8]) -> HostWritten
    ensures { (result, out.new) ≡ write_told (to_names_of text.now out.old) }
{
    written_told(dialect::to_names(text, out))
}

// Open's answer, its session in numbers, and both slices as it leaves them.
pub fn yildreuz_open(table: &[u16], n: u32, log: &mut [u32], tape: &mut [u32]) -> HostOpening
    ensures { (result, log.new, tape.new)
        ≡ open_told (open_of table.now n log.old tape.old) }
{
    opening_told(session::open(table, n, log, tape))
}

// To a position.
pub fn yildreuz_go_to(
    table: &[u16],
    n: u32,
    session: HostSession,
    log: &mut [u32],
    tape: &mut [u32],
    position: u32,
) -> HostOutcome
    ensures { (result, log.new, tape.new)
        ≡ called (λ g. go_to_of g position) table.now n session log.old tape.old }
{
    let s = made_with(session);
    given_back(session, session::go_to(table, n, s, log, tape, position))
}

// Forward by a count.
pub fn yildreuz_forward(
    table: &[u16],
    n: u32,
    session: HostSession,
    log: &mut [u32],
    tape: &mut [u32],
    count: u32,
) -> HostOutcome
    ensures { (result, log.new, tape.new)
        ≡ called (λ g. forward_of g count) table.now n session log.old tape.old }
{
    let s = made_with(session);
    given_back(session, session::forward(table, n, s, log, tape, count))
}

// Forward by a count, or to the first later position that it reaches at which the token stands on a node in a direction.
pub fn yildreuz_forward_to(
    table: &[u16],
    n: u32,
    session: HostSession,
    log: &mut [u32],
    tape: &mut [u32],
    node: u32,
    direction: u32,
    count: u32,
) -> HostOutcome
    ensures { (result, log.new, tape.new)
        ≡ called (λ g. forward_to_of g (spot_in node direction) count) table.now n session log.old tape.old }
{
    let i = chosen_node(node, direction);
    let dir = chosen_dir(direction);
    let s = made_with(session);
    given_back(
        session,
        session::forward_to(table, n, s, log, tape, i, dir, count),
    )
}

// Back to the last earlier position at which the token stood on a node in a direction.
pub fn yildreuz_back_to(
    table: &[u16],
    n: u32,
    session: HostSession,
    log: &mut [u32],
    tape: &mut [u32],
    node: u32,
    direction: u32,
) -> HostOutcome
    ensures { (result, log.new, tape.new)
        ≡ called (λ g. back_to_of g (spot_in node direction)) table.now n session log.old tape.old }
{
    let i = chosen_node(node, direction);
    let dir = chosen_dir(direction);
    let s = made_with(session);
    given_back(session, session::back_to(table, n, s, log, tape, i, dir))
}

// Back by a count.
pub fn yildreuz_back(
    table: &[u16],
    n: u32,
    session: HostSession,
    log: &mut [u32],
    tape: &mut [u32],
    count: u32,
) -> HostOutcome
    ensures { (result, log.new, tape.new)
        ≡ called (λ g. back_of g count) table.now n session log.old tape.old }
{
    let s = made_with(session);
    given_back(session, session::back(table, n, s, log, tape, count))
}

// Where the top entry lies in the lent slice. The number goes out through `refusal`.
pub fn yildreuz_top<'a>(
    table: &[u16],
    n: u32,
    session: HostSession,
    log: &'a [u32],
    tape: &'a [u32],
    which: u32,
    refusal: &mut u32,
) -> HostPart
    ensures { (result, refusal.new)
        ≡ top_called table.now n session log.now tape.now which }
{
    let s = made_with(session);
    match part_of(table, n, s, log, tape, which) {
        Ok(part) => {
            *refusal = 0;
            part
        }
        Err(number) => {
            *refusal = number.number();
            HostPart { offset: 0, len: 0 }
        }
    }
}

// What forward by a count would give; every word as given.
pub fn yildreuz_look(
    table: &[u16],
    n: u32,
    session: HostSession,
    log: &mut [u32],
    tape: &mut [u32],
    count: u32,
) -> HostLook
    ensures { (result, log.new, tape.new)
        ≡ look_called table.now n session log.old tape.old count }
{
    let s = made_with(session);
    look_told(session::look(table, n, s, log, tape, count))
}

// By the position and the count that a look handed out.
pub fn yildreuz_go(
    table: &[u16],
    n: u32,
    session: HostSession,
    log: &mut [u32],
    tape: &mut [u32],
    position: u32,
    count: u32,
) -> HostOutcome
    ensures { (result, log.new, tape.new)
        ≡ called (λ g. go_of g position count) table.now n session log.old tape.old }
{
    let s = made_with(session);
    given_back(
        session,
        session::go(table, n, s, log, tape, position, count),
    )
}

// The run's answer, and the records as it leaves them.
pub fn yildreuz_run(table: &[u16], n: u32, records: &mut [u32], count: u32) -> HostRun
    ensures { (result, records.new) ≡ run_told (run_of table.now n records.old count) }
{
    run_told(krivine::run(table, n, records, count))
}
