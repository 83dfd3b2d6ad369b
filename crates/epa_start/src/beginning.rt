// The whole start of a run, from stores with no entries ("Initialization" of `EPA::closest_points`).
ghost use Rattle.std.specs.Prelude.{◌≡◌};
ghost use Rattle.epa_polytope.specs.Stores.{none_yet};
ghost use Rattle.epa_polytope.specs.Start.{begin};
ghost use Rattle.epa_polytope.specs.Promises.{begin_out};
ghost use Rattle.epa_stores.specs.Lent.{GivesAll, Kept, pair_world};

use crate::vertices::{dist_tol, start_vertices};
use epa_first_faces::start_faces;
use epa_polytope::{Begun, Finish, Tally};
use epa_stores::Stores;
use shape::Pair;
use simplex::VoronoiSimplex;

// Nothing is made yet.
fn none_yet() -> Tally
    ensures { result ≡ none_yet }
{
    Tally {
        vertices: 0,
        faces: 0,
        edges: 0,
        heap: 0,
        pending: 0,
        done: 0,
        most: 0,
        missed: 0,
    }
}

// The vertices, the tolerance of the keys, and the first faces.
pub fn begin(stores: &mut Stores<'_>, pair: &Pair, simplex: VoronoiSimplex) -> Result<Begun, Finish>
    ensures leaves { GivesAll begin_out (begin (pair_world pair.now) simplex) none_yet result stores }
    ensures kept { Kept stores }
{
    let dim = simplex.dim;
    let pushed = start_vertices(stores, none_yet(), pair, simplex)?;
    let tol = dist_tol(stores, pushed.vertices);
    let tally = start_faces(stores, pushed, pair, dim, tol)?;
    Ok(Begun { tol, tally })
}
