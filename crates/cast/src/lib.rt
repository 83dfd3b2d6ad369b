// The time of impact: `minkowski_ray_cast` of gjk.rs, a ray cast on the Minkowski difference of two shapes, with
// `ray_toi_with_halfspace`; `result` is the crate `witnesses`.
// A miss is number 6, and every place where the Rust panics gets refusal 2.
#![tactic(auto)]

mod ray;
mod rounds;

pub use ray::Ray;
pub use rounds::{Cast, Impact, minkowski_ray_cast};
