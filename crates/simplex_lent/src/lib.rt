// The simplex of voronoi_simplex3.rs, lent: `reset`, `add_point` and `project_origin_and_reduce` over `&mut`, as the Rust has them, and the
// two operations that the last is made of. The caller finds the one simplex altered in place.
#![tactic(auto)]

mod lent;

pub use lent::{add_point, apply_location, project_origin, project_origin_and_reduce, reset};
