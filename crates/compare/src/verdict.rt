// What a line counts as: each machine gets 10,000 steps on its term (document 02, change 11).
use krivine::Halt;
use session::Stop;

// How many steps each machine gets.
const STEPS: u32 = 10000;

// Refused; answered by both machines at one node, or at two; by one of them; or by neither.
#[derive(Clone, Copy)]
pub(crate) enum Verdict {
    Refused,
    Agreed,
    Differed,
    One,
    Neither,
}

// The node of our machine's answer, with slices of 1,024 words.
fn our_answer(table: &[u16], n: u32) -> Option<u32> {
    let mut log = [0u32; 1024];
    let mut tape = [0u32; 1024];
    let first = session::open(table, n, &mut log, &mut tape).ok()?;
    let came = session::forward(table, n, first, &mut log, &mut tape, STEPS).ok()?;
    match came.stop {
        Stop::Answer(node) => Some(node),
        _ => None,
    }
}

// The node of Krivine's, with 3,000 words.
fn krivines_answer(table: &[u16], n: u32) -> Option<u32> {
    let mut records = [0u32; 3000];
    let run = krivine::run(table, n, &mut records, STEPS).ok()?;
    match run.halt {
        Halt::Answer => Some(run.node),
        _ => None,
    }
}

// A line, without its line feed.
pub(crate) fn judged(line: &[u8]) -> Verdict {
    let mut table = [0u16; 15000];
    let Ok(n) = reader::read(line, &mut table) else {
        return Verdict::Refused;
    };
    match (our_answer(&table, n), krivines_answer(&table, n)) {
        (Some(ours), Some(krivines)) if ours == krivines => Verdict::Agreed,
        (Some(_), Some(_)) => Verdict::Differed,
        (None, None) => Verdict::Neither,
        _ => Verdict::One,
    }
}
