// The polytope of epa3.rs, over stores that the caller lends: what its run passes from hand to hand. The run's definition is in specs/, in
// files that follow the Rust (Stores, Face, Silhouette, PlainWalk, Steps, Start, Expansion, Run), and what holds of it, demand 3 above all, in proofs/.
#![tactic(auto)]

mod types;

pub use types::{
    Begun, Best, End, Expansion, FaceId, Facing, Finish, Found, Lost, Made, PlainSoFar, Popped,
    Question, Site, Store, Tally, Three, Visited, Walk, WalkSoFar,
};
