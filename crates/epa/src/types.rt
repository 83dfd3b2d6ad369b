// What the calls of this crate answer.
use counts::Counts;
use epa_polytope::End;

// How a run ended, and its counts.
#[derive(Clone, Copy)]
pub struct Answer {
    pub end: End,
    pub counts: Counts,
}
