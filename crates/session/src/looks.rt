// A look: what forward by a count would give, with every word left as it was (document 02, change 10).
ghost use Rattle.std.specs.Prelude.{◌≡◌};
ghost use Rattle.calls.specs.Looks.{look_of};
ghost use Rattle.session.specs.Types.{look_meant, lent};
ghost use Rattle.session.specs.Steps.{Ready};
ghost use Rattle.session.specs.Looks.{told_from};

use crate::winding::{Way, wind};
use crate::{Outcome, Session, Stop};
use term::Tree;

// What a look answers: the steps, the stop, the peak and the words carried that forward would give, and the position and the count that it looked from. (It is declared here and not
// beside the function `look`, for Rattle refuses two names in one module that differ in the case of a letter alone.)
#[derive(Clone, Copy, Debug, PartialEq, Eq)]
pub struct Look {
    pub steps: u32,
    pub stop: Stop,
    pub peak: u32,
    pub carried: u64,
    pub position: u32,
    pub count: u32,
}

// What a walk came to, with the position and the count that it was looked at from.
fn told(came: Outcome, position: u32, count: u32) -> Look
    ensures { result ≡ told_from came position count }
{
    Look {
        steps: came.steps,
        stop: came.stop,
        peak: came.peak,
        carried: came.carried,
        position,
        count,
    }
}

// Forward by the count, and back again by the steps made, which gives back every word: no copy of the slices is needed.
pub(crate) fn look_ahead(
    tree: &Tree<'_>,
    session: Session,
    log: &mut [u32],
    tape: &mut [u32],
    count: u32,
) -> Look
    requires { Ready tree.now.words tree.now.n session log.old tape.old }
    ensures { look_meant (Ok result) log.new tape.new
        ≡ look_of (lent tree.now.words tree.now.n session log.old tape.old) count }
{
    let there = wind(tree, session, log, tape, Way::Forward, count);
    let _home = wind(tree, there.session, log, tape, Way::Back, there.steps);
    told(there, session.position, count)
}
