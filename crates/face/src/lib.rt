// What a host in another language holds and gets, in numbers: the structs of host/yildreuz.h. C has no Option and no Result, so that a refusal's number stands beside the answer, and a
// code beside its value.
#![tactic(auto)]

// What the readers answer. A refusal of 0 is none.
#[repr(C)]
#[derive(Clone, Copy)]
pub struct HostReading {
    pub n: u32,
    pub refusal: u32,
}

// What the calls that write a text answer. In a refusal the length is 0; a refusal of 0 is none.
#[repr(C)]
#[derive(Clone, Copy)]
pub struct HostWritten {
    pub len: u32,
    pub refusal: u32,
}

// Direction: 0 is down, 1 is up. Turns: how many of the steps from the start to the position changed direction.
#[repr(C)]
#[derive(Clone, Copy)]
pub struct HostSession {
    pub node: u32,
    pub direction: u32,
    pub position: u32,
    pub log_len: u32,
    pub tape_len: u32,
    pub turns: u32,
}

// What open answers. A refusal of 0 is none.
#[repr(C)]
#[derive(Clone, Copy)]
pub struct HostOpening {
    pub session: HostSession,
    pub refusal: u32,
}

// What the calls that wind answer. Stop: 0 spent, 1 answer, 2 jam, 3 far, 4 start, 5 log full, 6 tape full, 7 refused, 8 found, 9 none.
// Value: the answer's node, the refusal's number, or 0; no stop has a second value. Peak: the greatest weight over the states stood in, in bits.
// Carried: how many words the steps moved between log and tape.
#[repr(C)]
#[derive(Clone, Copy)]
pub struct HostOutcome {
    pub session: HostSession,
    pub steps: u32,
    pub stop: u32,
    pub value: u32,
    pub value2: u32,
    pub peak: u32,
    pub carried: u64,
}

// What a look answers, of the walk that it looked at: steps, stop, value, value2, peak and carried as in an outcome; and the position and the count that it looked from. But for the stop and
// the value, which is the number, every number is 0 in a refusal.
#[repr(C)]
#[derive(Clone, Copy)]
pub struct HostLook {
    pub steps: u32,
    pub stop: u32,
    pub value: u32,
    pub value2: u32,
    pub peak: u32,
    pub carried: u64,
    pub position: u32,
    pub count: u32,
}

// What top answers: where the part lies in the lent slice, the index of its first word and how many words it has. Both are 0 in a refusal.
#[repr(C)]
#[derive(Clone, Copy)]
pub struct HostPart {
    pub offset: u32,
    pub len: u32,
}

// What a run of Krivine's machine answers: the node where it stands and the steps made. Halt: 0 spent, 1 answer, 2 full, 3 refused. Value: the refusal's number, or 0. In a refusal node and
// steps are 0.
#[repr(C)]
#[derive(Clone, Copy)]
pub struct HostRun {
    pub node: u32,
    pub steps: u32,
    pub halt: u32,
    pub value: u32,
}
