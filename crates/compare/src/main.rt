// The program `compare` of document 02, change 11: reads one term a line from standard input, gives our machine and Krivine's 10,000 steps each, and prints how many lines were refused,
// answered by both machines, by one, by neither, and on how many both answered at different nodes.
#![tactic(auto)]

use counts::Counts;
use line::Line;
use std::io::Read;
use verdict::judged;

mod counts;
mod line;
mod verdict;

// Counts the lines of the input that a line feed ends; what comes after the last of them is kept.
fn read_lines<R: Read>(input: &mut R, counts: &mut Counts, line: &mut Line) {
    let mut bytes = [0u8; 4096];
    for _ in 0..u64::MAX {
        let got = input::fill(input, &mut bytes);
        if got == 0 {
            break;
        }
        for b in &bytes[..got] {
            if *b == b'\n' {
                counts.count(judged(line.kept()));
                line.clear();
            } else {
                line.keep(*b);
            }
        }
    }
}

fn main(rt: HostRuntime) {
    let mut counts = Counts::default();
    let mut line = Line::new();
    read_lines(&mut rt.stdin(), &mut counts, &mut line);
    // A last line without a line feed counts if it has a byte.
    if !line.kept().is_empty() {
        counts.count(judged(line.kept()));
    }
    let _printed = rt.println(counts);
}
