// `project_origin_and_reduce` of voronoi_simplex3.rs as two operations: `project_origin` finds where the origin projects on a simplex
// and leaves it untouched, `apply_location` reduces the simplex to a location. A location that the first gave for a simplex is always
// taken by the second (`found-is-taken`), and the two in turn are the Rust's function (`both-in-turn`, in proofs/Fits.antt).
#![tactic(auto)]

mod applying;
mod location;

pub use applying::{Applied, ApplyError, apply_location};
pub use location::{Location, Projected, project_origin};
