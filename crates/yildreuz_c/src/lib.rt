// The functions of `yildreuz` for C, each with its clauses: the archive that host/yildreuz.h declares.
#![tactic(auto)]

ghost use Rattle.std.specs.Prelude.{◌≡◌};
ghost use Rattle.text.specs.Dialects.{to_numbers_of, to_names_of};
ghost use Rattle.text.specs.NumberReading.{read_numbers_of};
ghost use Rattle.text.specs.Reading.{read_of};
ghost use Rattle.text.specs.Writing.{write_of, write_numbers_of};
ghost use Rattle.calls.specs.Calls.{open_of, forward_of, back_of, go_to_of};
ghost use Rattle.calls.specs.Visits.{back_to_of, forward_to_of};
ghost use Rattle.calls.specs.Looks.{go_of};
ghost use Rattle.session.specs.Types.{lent};
ghost use Rattle.kam.specs.Runs.{run_of};
ghost use Rattle.face.specs.Numbers.{spot_in};
ghost use Rattle.face.specs.Told.{read_told, write_told, open_told, called, look_called, top_called, run_told};

use face::{
    HostLook, HostOpening, HostOutcome, HostPart, HostReading, HostRun, HostSession, HostWritten,
};

// The reader's answer, and the table slice as it leaves it; the same of the number dialect.
#[unsafe(no_mangle)]
pub extern "C" fn yildreuz_read(text: &[u8], table: &mut [u16]) -> HostReading
    ensures { (result, table.new) ≡ read_told (read_of text.now table.old) }
{
    yildreuz::yildreuz_read(text, table)
}

#[unsafe(no_mangle)]
pub extern "C" fn yildreuz_read_numbers(text: &[u8], table: &mut [u16]) -> HostReading
    ensures { (result, table.new) ≡ read_told (read_numbers_of text.now table.old) }
{
    yildreuz::yildreuz_read_numbers(text, table)
}

// The writer's answer, and the lent bytes as it leaves them; the same of the number dialect.
#[unsafe(no_mangle)]
pub extern "C" fn yildreuz_write(table: &[u16], n: u32, text: &mut [u8]) -> HostWritten
    ensures { (result, text.new) ≡ write_told (write_of table.now n text.old) }
{
    yildreuz::yildreuz_write(table, n, text)
}

#[unsafe(no_mangle)]
pub extern "C" fn yildreuz_write_numbers(table: &[u16], n: u32, text: &mut [u8]) -> HostWritten
    ensures { (result, text.new) ≡ write_told (write_numbers_of table.now n text.old) }
{
    yildreuz::yildreuz_write_numbers(table, n, text)
}

// A conversion's answer, and the lent bytes as it leaves them.
#[unsafe(no_mangle)]
pub extern "C" fn yildreuz_to_numbers(text: &[u8], out: &mut [u8]) -> HostWritten
    ensures { (result, out.new) ≡ write_told (to_numbers_of text.now out.old) }
{
    yildreuz::yildreuz_to_numbers(text, out)
}

#[unsafe(no_mangle)]
pub extern "C" fn yildreuz_to_names(text: &[u8], out: &mut [u8]) -> HostWritten
    ensures { (result, out.new) ≡ write_told (to_names_of text.now out.old) }
{
    yildreuz::yildreuz_to_names(text, out)
}

// Open's answer, its session in numbers, and both slices as it leaves them.
#[unsafe(no_mangle)]
pub extern "C" fn yildreuz_open(
    table: &[u16],
    n: u32,
    log: &mut [u32],
    tape: &mut [u32],
) -> HostOpening
    ensures { (result, log.new, tape.new)
        ≡ open_told (open_of table.now n log.old tape.old) }
{
    yildreuz::yildreuz_open(table, n, log, tape)
}

// To a position.
#[unsafe(no_mangle)]
pub extern "C" fn yildreuz_go_to(
    table: &[u16],
    n: u32,
    session: HostSession,
    log: &mut [u32],
    tape: &mut [u32],
    position: u32,
) -> HostOutcome
    ensures { (result, log.new, tape.new)
        ≡ called (λ g. go_to_of g position) table.now n session log.old tape.old }
{
    yildreuz::yildreuz_go_to(table, n, session, log, tape, position)
}

// Forward by a count.
#[unsafe(no_mangle)]
pub extern "C" fn yildreuz_forward(
    table: &[u16],
    n: u32,
    session: HostSession,
    log: &mut [u32],
    tape: &mut [u32],
    count: u32,
) -> HostOutcome
    ensures { (result, log.new, tape.new)
        ≡ called (λ g. forward_of g count) table.now n session log.old tape.old }
{
    yildreuz::yildreuz_forward(table, n, session, log, tape, count)
}

// Forward by a count, or to the first later position that it reaches at which the token stands on a node in a direction.
#[unsafe(no_mangle)]
pub extern "C" fn yildreuz_forward_to(
    table: &[u16],
    n: u32,
    session: HostSession,
    log: &mut [u32],
    tape: &mut [u32],
    node: u32,
    direction: u32,
    count: u32,
) -> HostOutcome
    ensures { (result, log.new, tape.new)
        ≡ called (λ g. forward_to_of g (spot_in node direction) count) table.now n session log.old tape.old }
{
    yildreuz::yildreuz_forward_to(table, n, session, log, tape, node, direction, count)
}

// Back to the last earlier position at which the token stood on a node in a direction.
#[unsafe(no_mangle)]
pub extern "C" fn yildreuz_back_to(
    table: &[u16],
    n: u32,
    session: HostSession,
    log: &mut [u32],
    tape: &mut [u32],
    node: u32,
    direction: u32,
) -> HostOutcome
    ensures { (result, log.new, tape.new)
        ≡ called (λ g. back_to_of g (spot_in node direction)) table.now n session log.old tape.old }
{
    yildreuz::yildreuz_back_to(table, n, session, log, tape, node, direction)
}

// Back by a count.
#[unsafe(no_mangle)]
pub extern "C" fn yildreuz_back(
    table: &[u16],
    n: u32,
    session: HostSession,
    log: &mut [u32],
    tape: &mut [u32],
    count: u32,
) -> HostOutcome
    ensures { (result, log.new, tape.new)
        ≡ called (λ g. back_of g count) table.now n session log.old tape.old }
{
    yildreuz::yildreuz_back(table, n, session, log, tape, count)
}

// Where the top entry lies in the lent slice. The number goes out through `refusal`.
#[unsafe(no_mangle)]
pub extern "C" fn yildreuz_top<'a>(
    table: &[u16],
    n: u32,
    session: HostSession,
    log: &'a [u32],
    tape: &'a [u32],
    which: u32,
    refusal: &mut u32,
) -> HostPart
    ensures { (result, refusal.new)
        ≡ top_called table.now n session log.now tape.now which }
{
    yildreuz::yildreuz_top(table, n, session, log, tape, which, refusal)
}

// What forward by a count would give; every word as given.
#[unsafe(no_mangle)]
pub extern "C" fn yildreuz_look(
    table: &[u16],
    n: u32,
    session: HostSession,
    log: &mut [u32],
    tape: &mut [u32],
    count: u32,
) -> HostLook
    ensures { (result, log.new, tape.new)
        ≡ look_called table.now n session log.old tape.old count }
{
    yildreuz::yildreuz_look(table, n, session, log, tape, count)
}

// By the position and the count that a look handed out.
#[unsafe(no_mangle)]
pub extern "C" fn yildreuz_go(
    table: &[u16],
    n: u32,
    session: HostSession,
    log: &mut [u32],
    tape: &mut [u32],
    position: u32,
    count: u32,
) -> HostOutcome
    ensures { (result, log.new, tape.new)
        ≡ called (λ g. go_of g position count) table.now n session log.old tape.old }
{
    yildreuz::yildreuz_go(table, n, session, log, tape, position, count)
}

// The run's answer, and the records as it leaves them.
#[unsafe(no_mangle)]
pub extern "C" fn yildreuz_run(table: &[u16], n: u32, records: &mut [u32], count: u32) -> HostRun
    ensures { (result, records.new) ≡ run_told (run_of table.now n records.old count) }
{
    yildreuz::yildreuz_run(table, n, records, count)
}
