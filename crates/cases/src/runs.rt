// Runs of Krivine's machine, with the log's words as their records.
use crate::desk::Desk;
use crate::show::show_words;

// Runs by a count, and shows the node, the steps, the halt and every word of the slice; of a refusal no node and no step.
pub(crate) fn show_run(rt: &impl Print, count: u32, desk: &mut Desk) {
    let _run = match krivine::run(desk.table.lent(), desk.n, desk.log.lent_mut(), count) {
        Ok(run) => print!(rt; " node {} steps {} {}", run.node, run.steps, run.halt),
        Err(refusal) => print!(rt; " node 0 steps 0 {refusal}"),
    };
    show_words(rt, " L", desk.log.words());
}
