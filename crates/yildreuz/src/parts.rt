// The list that a host's number names, and where its top entry lies in the host's slice.
ghost use Rattle.std.specs.Prelude.{◌≡◌};
ghost use Rattle.calls.specs.Top.{length_given, top_of};
ghost use Rattle.session.specs.Types.{session_meant, which_meant, lent};
ghost use Rattle.yildreuz.specs.TopTold.{list_named, part_meant, told_of};

use face::HostPart;
use session::{Session, Which, top};
use term::Refusal;

// The list that a number names; the log where it names none, for the numbers that come before 10.
fn list_named(which: u32) -> Which
    ensures { which_meant result ≡ list_named which }
{
    if which == 1 { Which::Tape } else { Which::Log }
}

// The index in the slice where the list ends. (`session` has a choice of one of two for itself alone.)
fn list_end(session: Session, list: Which) -> u32
    ensures { result ≡ length_given (which_meant list) (session_meant session) }
{
    match list {
        Which::Log => session.log_len,
        Which::Tape => session.tape_len,
    }
}

// The top entry's words below the end of the list. Where no list is named, 10 comes after the numbers before it.
pub(crate) fn part_of<'a>(
    table: &[u16],
    n: u32,
    session: Session,
    log: &'a [u32],
    tape: &'a [u32],
    which: u32,
) -> Result<HostPart, Refusal>
    ensures { part_meant result
        ≡ told_of which (list_named which) (lent table.now n session log.now tape.now) }
{
    let list = list_named(which);
    let end = list_end(session, list);
    let part = top(table, n, session, log, tape, list)?;
    if 1 < which {
        return Err(Refusal::NothingOnTop);
    }
    let size = part.len() as u32;
    Ok(HostPart {
        offset: end - size,
        len: size,
    })
}
