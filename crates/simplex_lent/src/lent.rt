// Each function copies the lent simplex out, calls the operation by value, and stores what comes back.
// What is refused leaves it as it came in, for the operation by value hands it back so.
ghost use Rattle.std.specs.Prelude.{◌≡◌};
ghost use Rattle.std.specs.Float.{binary32};
ghost use Rattle.number.specs.Told.{Told, no_values};
ghost use Rattle.simplex.specs.Operations.{reset_simplex, altered_number, add_point, answer_number, answer_value};
ghost use Rattle.reduction.specs.Reduction.{project_origin, projected_number, projected_values, apply_location, application_number, project_origin_and_reduce};

use reduction::{ApplyError, Location, Projected};
use refusal::WouldPanic;
use shape::Vertex;
use simplex::VoronoiSimplex;

// The simplex becomes the one vertex.
pub fn reset(s: &mut VoronoiSimplex, pt: Vertex) -> Result<(), WouldPanic>
    ensures answer { (s.new ≡ (reset_simplex s.old pt).simplex) × (result ≡ (reset_simplex s.old pt).outcome) }
    ensures told { Told altered_number no_values result (reset_simplex s.old pt).outcome }
{
    let r = VoronoiSimplex::reset(*s, pt);
    *s = r.simplex;
    r.outcome
}

// Adds a vertex, and answers no where it would add nothing.
pub fn add_point(s: &mut VoronoiSimplex, pt: Vertex) -> Result<bool, WouldPanic>
    ensures answer { (s.new ≡ (add_point binary32 s.old pt).simplex) × (result ≡ (add_point binary32 s.old pt).answer) }
    ensures told { Told answer_number answer_value result (add_point binary32 s.old pt).answer }
{
    let r = VoronoiSimplex::add_point(*s, pt);
    *s = r.simplex;
    r.answer
}

// Where the origin projects on the simplex, which stays as it is.
pub fn project_origin(s: &VoronoiSimplex) -> Result<Projected, WouldPanic>
    ensures answer { result ≡ project_origin binary32 s.now }
    ensures told { Told projected_number projected_values result (project_origin binary32 s.now) }
{
    reduction::project_origin(*s)
}

// Reduces the simplex to a location.
pub fn apply_location(s: &mut VoronoiSimplex, location: Location) -> Result<(), ApplyError>
    ensures answer { (s.new ≡ (apply_location s.old location).simplex) × (result ≡ (apply_location s.old location).outcome) }
    ensures told { Told application_number no_values result (apply_location s.old location).outcome }
{
    let r = reduction::apply_location(*s, location);
    *s = r.simplex;
    r.outcome
}

// Both in turn: projects the origin on the simplex, and reduces it to the part that holds the projection. A location that was found for a
// simplex is always taken, so the answer of applying it is not looked at (`both-in-turn` of `reduction`).
pub fn project_origin_and_reduce(s: &mut VoronoiSimplex) -> Result<Projected, WouldPanic>
    ensures answer { (s.new ≡ (project_origin_and_reduce binary32 s.old).simplex) × (result ≡ (project_origin_and_reduce binary32 s.old).projection) }
    ensures told { Told projected_number projected_values result (project_origin_and_reduce binary32 s.old).projection }
{
    let projection = reduction::project_origin(*s)?;
    let r = reduction::apply_location(*s, projection.location);
    *s = r.simplex;
    Ok(projection)
}
