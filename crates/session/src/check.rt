// The numbers 7, 8, 9, 12 and 15, in their order of test.
ghost use Rattle.std.specs.Prelude.{◌≡◌, IfOk, not, ◌^◌, ◌<◌, ◌≤◌, length, drop, eqb, true, false};
ghost use Rattle.term.specs.Choice.{is_none, if_some};
ghost use Rattle.term.specs.Tree.{tree_table};
ghost use Rattle.machine.specs.Slice.{all_zero};
ghost use Rattle.calls.specs.Held.{state_in};
ghost use Rattle.session.specs.Counting.{count_entry, is_bullet, have_words, have_log, have_tape, CountIs};
ghost use Rattle.calls.specs.Calls.{lent_number, call_number};
ghost use Rattle.calls.specs.Looks.{go_number};
ghost use Rattle.calls.specs.Visits.{visit_number};
ghost use Rattle.session.specs.Types.{session_meant, lent, refused_by};

use crate::Session;
use crate::extent::arity;
use term::{Kind, Refusal, Tree};

// Whether every word is 0.
fn zeros(words: &[u32]) -> bool
    ensures { result ≡ all_zero words.now }
{
    words.iter().all(|word| *word == 0)
}

// How many entries there are once word v has taken its arity-many of those there were; none where it makes no entry.
fn entries_with(tree: &Tree<'_>, v: u32, have: usize) -> Option<usize>
    requires { have < 2 ^ 63 }
    ensures { CountIs (count_entry (tree_table tree.now) v have) result }
{
    if tree.kind(v) != Some(Kind::Variable) {
        return None;
    }
    let left = have.checked_sub(arity(tree, v) as usize)?;
    Some(left + 1)
}

// Whether a word is a bullet, where bullets may stand.
fn is_bullet(word: u32, bullets: bool) -> bool
    ensures { result ≡ is_bullet bullets word }
{
    bullets && word == 0
}

// The entries that the words, read from the low end, leave on top, down to a bullet; none where one of them makes no entry.
fn entries_in(tree: &Tree<'_>, words: &[u32], bullets: bool) -> Option<usize>
    ensures { CountIs (have_words bullets (tree_table tree.now) words.now 0) result }
{
    let mut have: usize = 0;
    for word in words {
        have = if is_bullet(*word, bullets) {
            0
        } else {
            entries_with(tree, *word, have)?
        };
    }
    Some(have)
}

// Whether the words are those of so many entries.
fn is_log(tree: &Tree<'_>, words: &[u32], level: u32) -> bool
    ensures { result ≡ if_some (have_log (tree_table tree.now) words.now 0) (λ k. eqb k level) (λ _. false) }
{
    entries_in(tree, words, false) == Some(level as usize)
}

// Whether the words are those of bullets and entries.
fn is_tape(tree: &Tree<'_>, words: &[u32]) -> bool
    ensures { result ≡ not (is_none (have_tape (tree_table tree.now) words.now 0)) }
{
    entries_in(tree, words, true).is_some()
}

// Whether the words below both tops are the log and the tape of a state at the session's node, and its turns are not over its position: the walk over the entries. It sees no word above a top, so its answer is
// number 9's only after a look there: it "demands that every word above both tops is 0" (document 02, change 4).
fn walk_entries(tree: &Tree<'_>, session: Session, log: &[u32], tape: &[u32]) -> bool
    requires log_len_in_bounds { (session.log_len ≤ length log.now) × (session.tape_len ≤ length tape.now) }
    requires log_value { (all_zero (drop session.log_len log.now) ≡ true) × (all_zero (drop session.tape_len tape.now) ≡ true) }
    ensures { result ≡ not (is_none (state_in (tree_table tree.now) (session_meant session)
        log.now tape.now)) }
{
    let node = session.node;
    let l = session.log_len as usize;
    let t = session.tape_len as usize;
    if node == 0 {
        return false;
    }
    if tree.n() < node {
        return false;
    }
    if session.position < session.turns {
        return false;
    }
    let level = tree.level(node);
    if !is_log(tree, &log[..l], level) {
        return false;
    }
    is_tape(tree, &tape[..t])
}

// Whether the session and its slices hold a state: once both tops lie in their slices, first the look at the words above them, and only then the walk.
fn holds_state(tree: &Tree<'_>, session: Session, log: &[u32], tape: &[u32]) -> bool
    ensures { result ≡ not (is_none (state_in (tree_table tree.now) (session_meant session)
        log.now tape.now)) }
{
    let l = session.log_len as usize;
    let t = session.tape_len as usize;
    if log.len() < l {
        return false;
    }
    if tape.len() < t {
        return false;
    }
    if !zeros(&log[l..]) {
        return false;
    }
    if !zeros(&tape[t..]) {
        return false;
    }
    walk_entries(tree, session, log, tape)
}

// Numbers 7 and 8, which are put to what every call is lent.
pub(crate) fn test_lent<'a>(
    table: &'a [u16],
    n: u32,
    log: &[u32],
    tape: &[u32],
) -> Result<Tree<'a>, Refusal>
    ensures number { refused_by result ≡ lent_number table.now n log.now tape.now }
    ensures same { IfOk result (λ t. (t.words ≡ table.now) × (t.n ≡ n)) }
{
    let Some(tree) = Tree::accept(table, n) else {
        return Err(Refusal::NotATable);
    };
    if log.len() > 16384 {
        return Err(Refusal::SliceTooLong);
    }
    if tape.len() > 16384 {
        return Err(Refusal::SliceTooLong);
    }
    Ok(tree)
}

// Numbers 7 to 9, which are put to every call on a session.
pub(crate) fn test_call<'a>(
    table: &'a [u16],
    n: u32,
    session: Session,
    log: &[u32],
    tape: &[u32],
) -> Result<Tree<'a>, Refusal>
    ensures number { refused_by result ≡ call_number (lent table.now n session log.now tape.now) }
    ensures same { IfOk result (λ t. (t.words ≡ table.now) × (t.n ≡ n)) }
{
    let tree = test_lent(table, n, log, tape)?;
    if !holds_state(&tree, session, log, tape) {
        return Err(Refusal::NotAState);
    }
    Ok(tree)
}

// What is put to the calls to a node: after 7 to 9, a node that the term has not.
pub(crate) fn test_visit<'a>(
    table: &'a [u16],
    n: u32,
    session: Session,
    log: &[u32],
    tape: &[u32],
    node: u32,
) -> Result<Tree<'a>, Refusal>
    ensures number { refused_by result ≡ visit_number node (lent table.now n session log.now tape.now) }
    ensures same { IfOk result (λ t. (t.words ≡ table.now) × (t.n ≡ n)) }
{
    let tree = test_call(table, n, session, log, tape)?;
    if node == 0 {
        return Err(Refusal::NoSuchNode);
    }
    if node > n {
        return Err(Refusal::NoSuchNode);
    }
    Ok(tree)
}

// What is put to go: after 7 to 9, a session that is not at the position.
pub(crate) fn test_go<'a>(
    table: &'a [u16],
    n: u32,
    session: Session,
    log: &[u32],
    tape: &[u32],
    position: u32,
) -> Result<Tree<'a>, Refusal>
    ensures number { refused_by result ≡ go_number position (lent table.now n session log.now tape.now) }
    ensures same { IfOk result (λ t. (t.words ≡ table.now) × (t.n ≡ n)) }
{
    let tree = test_call(table, n, session, log, tape)?;
    if session.position != position {
        return Err(Refusal::Elsewhere);
    }
    Ok(tree)
}
