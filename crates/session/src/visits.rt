// A visit: the token stands on a chosen node in a chosen direction; and the search back for one.
ghost use Rattle.std.specs.Prelude.{◌≡◌, ◌&&◌, eqb};
ghost use Rattle.calls.specs.Visits.{spot, same_dir};
ghost use Rattle.session.specs.Types.{dir_meant};
ghost use Rattle.session.specs.Steps.{Ready};
ghost use Rattle.session.specs.Visits.{SeeksBack};

use crate::winding::{Way, halted, seek, wind};
use crate::{Dir, Outcome, Session, Stop};
use term::Tree;

// Whether the token of a session stands on the node in the direction. (Node and direction are two parameters wherever they go, as the public `back_to` and `forward_to` take them.)
pub(crate) fn stands_on(session: Session, node: u32, dir: Dir) -> bool
    ensures { result ≡ eqb session.node node && same_dir (dir_meant session.dir) (dir_meant dir) }
{
    session.node == node && session.dir == dir
}

// The search back, to position 0 at most. Without a visit the token turns round and goes the whole way forward again, which gives back every word;
// peak and words carried are then those of a walk of no step.
pub(crate) fn seek_back(
    tree: &Tree<'_>,
    session: Session,
    log: &mut [u32],
    tape: &mut [u32],
    node: u32,
    dir: Dir,
) -> Outcome
    requires { Ready tree.now.words tree.now.n session log.old tape.old }
    ensures { SeeksBack tree.now.words tree.now.n session log.old tape.old (spot node (dir_meant dir)) result
        log.new tape.new }
{
    let there = seek(
        tree,
        session,
        log,
        tape,
        Way::Back,
        session.position,
        node,
        dir,
    );
    if there.stop == Stop::Found {
        return there;
    }
    let _home = wind(tree, there.session, log, tape, Way::Forward, there.steps);
    let here = wind(tree, session, log, tape, Way::Forward, 0);
    halted(here, Stop::None)
}
