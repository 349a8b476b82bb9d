// Closures as records in a lent slice: node, environment, next (document 02, change 11).
ghost use Rattle.std.specs.Prelude.{◌≡◌, [], ◌∷◌, suc, ◌-◌, ◌*◌, ◌≤◌, length, set};
ghost use Rattle.std.proofs.lemmas.List.Edits.{sets};
ghost use Rattle.kam.specs.Records.{word_index, record_below};
ghost use Rattle.krivine.specs.Standing.{record_in};

// What a record holds: a closure's node and environment, and the record below it.
#[derive(Clone, Copy, Debug, PartialEq, Eq)]
pub(crate) struct Record {
    pub node: u32,
    pub environment: u32,
    pub next: u32,
}

// The record of this number; each of its words is 0 where there is none, as 0 ends every chain of records (document 02, change 11).
pub(crate) fn record_at(records: &[u32], number: u32) -> Record
    ensures { result ≡ record_in records.now number }
{
    if number == 0 {
        return Record {
            node: 0,
            environment: 0,
            next: 0,
        };
    }
    let at = 3 * (number as usize - 1);
    let word = |f: usize| records.get(at + f).copied().unwrap_or(0);
    Record {
        node: word(0),
        environment: word(1),
        next: word(2),
    }
}

// The number of the record so far below another: next is the record below it.
pub(crate) fn record_below(records: &[u32], top: u32, depth: u32) -> u32
    ensures { result ≡ record_below depth records.now top }
{
    let mut number = top;
    for _ in 0..depth {
        number = record_at(records, number).next;
    }
    number
}

// Writes the record after those taken.
pub(crate) fn put_record(records: &mut [u32], taken: u32, put: Record)
    requires { 3 * suc taken ≤ length records.old }
    ensures { records.new ≡ sets records.old (word_index taken 0) (put.node ∷ put.environment ∷ put.next ∷ []) }
{
    let at = 3 * taken as usize;
    // Three stores: a copy of the three words at once makes a step of the machine slower.
    records[at] = put.node;
    records[at + 1] = put.environment;
    records[at + 2] = put.next;
}

// Writes the next of a record anew.
pub(crate) fn rewrite_next(records: &mut [u32], number: u32, next: u32)
    requires { (1 ≤ number) × (3 * number ≤ length records.old) }
    ensures { records.new ≡ set records.old (word_index (number - 1) 2) next }
{
    records[3 * (number as usize - 1) + 2] = next;
}
