// One expansion of the polytope of epa3.rs, over lists that the caller lends (the body of the loop of `EPA::closest_points`, once a live face
// is popped): the vertex farthest along the face's normal is pushed, and the run ends at the best face, or the polytope grows to that
// vertex. What each function leaves and answers is a step of the run that the crate `epa_polytope` defines.
#![tactic(auto)]

mod expansion;
mod popped;
mod ring;

pub use popped::visit;
