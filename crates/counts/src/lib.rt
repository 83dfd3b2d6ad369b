// The counts of a run of the polytope, which its answer, a record's line and a vote carry.
#![tactic(auto)]

// Expansions completed, faces made, faces live at the end, most edges in one pass, lookups that missed. Laid out for C.
#[repr(C)]
#[derive(Clone, Copy, PartialEq, Eq)]
pub struct Counts {
    pub expansions: usize,
    pub made: usize,
    pub live: usize,
    pub edges: usize,
    pub missed: usize,
}

impl Counts {
    // Of no run.
    pub const NONE: Counts = Counts {
        expansions: 0,
        made: 0,
        live: 0,
        edges: 0,
        missed: 0,
    };
}
