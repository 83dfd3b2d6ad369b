// The start of the polytope's run of epa3.rs, over lists that the caller lends: the vertices, the tolerance of the keys, and the first faces.
// What each function leaves and answers is a step of the run that the crate `epa_polytope` defines.
#![tactic(auto)]

mod beginning;
mod vertices;

pub use beginning::begin;
