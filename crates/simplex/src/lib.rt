// The simplex of voronoi_simplex3.rs, by value: every operation takes it, and hands it back where the
// Rust alters it; the projections of the origin are the crate `reduction`. A value that is no simplex, and every place where the Rust panics, gets refusal 2
// with the simplex as it came in.
#![tactic(auto)]

mod operations;
mod steps;
mod voronoi_simplex;

pub use operations::{Added, Altered};
pub use voronoi_simplex::VoronoiSimplex;
