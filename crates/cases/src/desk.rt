// What the script has set for the next call.
use crate::command::Setting;
use crate::lent::Slice;
use session::{Dir, Session};

// The session of a refused open: document 01 says what it is, and it is printed.
pub(crate) const NO_SESSION: Session = Session {
    node: 0,
    dir: Dir::Down,
    position: 0,
    log_len: 0,
    tape_len: 0,
    turns: 0,
};

// The pieces of the text; the slices; n; the session.
#[derive(Drop)]
pub(crate) struct Desk<'a> {
    pub(crate) text: &'a [u8],
    pub(crate) table: Slice<u16, 15010>,
    pub(crate) log: Slice<u32, 16385>,
    pub(crate) tape: Slice<u32, 16385>,
    pub(crate) n: u32,
    pub(crate) session: Session,
}

impl<'a> Desk<'a> {
    pub(crate) fn cleared() -> Desk<'a> {
        Desk {
            text: &[],
            table: Slice::empty(0),
            log: Slice::empty(0),
            tape: Slice::empty(0),
            n: 0,
            session: NO_SESSION,
        }
    }

    // None where the line asks for too much.
    pub(crate) fn set(&mut self, setting: Setting) -> Option<()> {
        match setting {
            Setting::Nodes(n) => self.n = n,
            Setting::Stand(session) => self.session = session,
            Setting::Table(change) => self.table.change(change)?,
            Setting::Log(change) => self.log.change(change)?,
            Setting::Tape(change) => self.tape.change(change)?,
            Setting::Tower(deep) => self.table.tower(deep)?,
        }
        Some(())
    }
}
