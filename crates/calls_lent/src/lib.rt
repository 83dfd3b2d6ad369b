// The lent operations of the simplex. Each is lent a local, which is read back: so the simplex goes over by value, and the answer as that of
// the operation by value.
#![tactic(auto)]

ghost use Rattle.std.specs.Prelude.{◌≡◌};
ghost use Rattle.std.specs.Float.{binary32};
ghost use Rattle.simplex.specs.Operations.{reset_simplex, add_point};
ghost use Rattle.reduction.specs.Reduction.{apply_location, project_origin_and_reduce};

use reduction::{Applied, Location, Projected};
use refusal::WouldPanic;
use shape::Vertex;
use simplex::{Added, Altered, VoronoiSimplex};

// The simplex that was lent, and the answer.
#[derive(Clone, Copy)]
pub struct Reduced {
    pub simplex: VoronoiSimplex,
    pub projection: Result<Projected, WouldPanic>,
}

pub fn reset_lent(s: VoronoiSimplex, pt: Vertex) -> Altered
    ensures { result ≡ reset_simplex s pt }
{
    let mut simplex = s;
    let outcome = simplex_lent::reset(&mut simplex, pt);
    Altered { simplex, outcome }
}

pub fn add_point_lent(s: VoronoiSimplex, pt: Vertex) -> Added
    ensures { result ≡ add_point binary32 s pt }
{
    let mut simplex = s;
    let answer = simplex_lent::add_point(&mut simplex, pt);
    Added { simplex, answer }
}

pub fn apply_lent(s: VoronoiSimplex, location: Location) -> Applied
    ensures { result ≡ apply_location s location }
{
    let mut simplex = s;
    let outcome = simplex_lent::apply_location(&mut simplex, location);
    Applied { simplex, outcome }
}

pub fn reduce_lent(s: VoronoiSimplex) -> Reduced
    ensures { (result.simplex ≡ (project_origin_and_reduce binary32 s).simplex) × (result.projection ≡ (project_origin_and_reduce binary32 s).projection) }
{
    let mut simplex = s;
    let projection = simplex_lent::project_origin_and_reduce(&mut simplex);
    Reduced {
        simplex,
        projection,
    }
}
