// What a run of Krivine's machine answers, for a host.
ghost use Rattle.std.specs.Prelude.{◌≡◌, List, ℕ};
ghost use Rattle.krivine.specs.Types.{halt_meant, ran_meant};
ghost use Rattle.face.specs.Numbers.{halt_code};
ghost use Rattle.face.specs.Told.{run_told};

use face::HostRun;
use krivine::{Halt, Run};
use term::Refusal;

fn halt_code(halt: Halt) -> u32
    ensures { result ≡ halt_code (halt_meant halt) }
{
    match halt {
        Halt::Spent => 0,
        Halt::Answer => 1,
        Halt::Full => 2,
    }
}

pub(crate) fn run_told(answer: Result<Run, Refusal>) -> HostRun
    ensures { (words : List ℕ) → (result, words) ≡ run_told (ran_meant answer words) }
{
    match answer {
        Ok(run) => HostRun {
            node: run.node,
            steps: run.steps,
            halt: halt_code(run.halt),
            value: 0,
        },
        Err(refusal) => HostRun {
            node: 0,
            steps: 0,
            halt: 3,
            value: refusal.number(),
        },
    }
}
