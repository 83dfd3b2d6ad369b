// The first faces of the polytope of epa3.rs, over lists that the caller lends: four of four vertices, else two ("Initialization" of
// `EPA::closest_points`). What each function leaves and answers is a step of the run that the crate `epa_polytope` defines.
#![tactic(auto)]

ghost use Rattle.epa_polytope.specs.Start.{start_faces};
ghost use Rattle.epa_stores.specs.Lent.{LeavesAll, Kept, pair_world};

mod four;
mod pairs;
mod two;

use epa_polytope::{Finish, Tally};
use epa_stores::Stores;
use four::start_four;
use shape::Pair;
use two::start_two;

// The first faces, of a simplex of dimension `dim`.
pub fn start_faces(
    stores: &mut Stores<'_>,
    tally: Tally,
    pair: &Pair,
    dim: usize,
    tol: f32,
) -> Result<Tally, Finish>
    ensures leaves { LeavesAll (start_faces (pair_world pair.now) dim tol) tally result stores }
    ensures kept { Kept stores }
{
    if dim == 3 {
        return start_four(stores, tally, tol);
    }
    start_two(stores, tally, pair)
}
