// `closest_points` of gjk.rs: the start, the rounds and their ways out. A simplex is reduced by `project_origin` and `apply_location` in turn:
// a location that was found for a simplex is always taken, so the answer of applying it is not looked at (`both-in-turn` of `reduction`).
ghost use Rattle.std.specs.Prelude.{◌≡◌};
ghost use Rattle.std.specs.Float.{binary32};
ghost use Rattle.number.specs.Root.{root};
ghost use Rattle.number.specs.Small.{larger};
ghost use Rattle.number.specs.Told.{Told};
ghost use Rattle.vector.specs.Vector.{length_v};
ghost use Rattle.shape.specs.Support.{from_shapes};
ghost use Rattle.simplex.specs.declared.voronoi_simplex.VoronoiSimplex.{VoronoiSimplex};
ghost use Rattle.gjk.specs.Gjk.{search_of, onward_with, ended_with, ◌▷◌, closest_by, apart_by, touching, start_of};
ghost use Rattle.gjk.specs.Gjk.{stagnated, bounded, stalled, added, added_by, reduced, probed, turn_of};
ghost use Rattle.gjk.specs.Gjk.{run_of, finished_by, closest_points, gjk_number, gjk_values};
ghost use Rattle.gjk.specs.Carried.{round_by, result_by, ran_by, turn_by, headed_by, seen_by};

use crate::carried::Carried;
use crate::perturbed::perturbed_dir;
use refusal::WouldPanic;
use shape::{Shape, Vertex, from_shapes};
use simplex::{Added, VoronoiSimplex};
use vector::{Pose, Vec3};
use witnesses::result;

// As in the Rust: 2 * DIM.
const MAX_PERTURBATIONS: usize = 6;

// A hundred rounds end the run, and a turn that is no round is followed by one of six perturbations, so these turns are never spent
// (`proofs/Enough.antt`).
const MAX_TURNS: usize = 107;

// The Rust's four results.
#[derive(Clone, Copy)]
pub enum GJKResult {
    Intersection,
    ClosestPoints(Vec3, Vec3, Vec3),
    Proximity(Vec3),
    NoIntersection(Vec3),
}

// Refusal 2 hands the simplex back as it came in.
#[derive(Clone, Copy)]
pub struct Gjk {
    pub simplex: VoronoiSimplex,
    pub result: Result<GJKResult, WouldPanic>,
}

// What a run is asked, and its tolerance.
#[derive(Clone, Copy)]
pub struct Query {
    pos12: Pose,
    g1: Shape,
    g2: Shape,
    max_dist: f32,
    exact_dist: bool,
    eps_rel: f32,
}

// How a run ends. Its result is made of it and of the last simplex, in one place and once (`result_of`).
#[derive(Clone, Copy)]
pub enum Ending {
    Intersection,
    // with the witness points of the present simplex, or of the one before
    ClosestPoints(bool, Vec3),
    Proximity(Vec3),
    NoIntersection(Vec3),
    Refused,
}

// The next round, unless the turn ends the run.
#[derive(Clone, Copy)]
pub struct Turn {
    simplex: VoronoiSimplex,
    next: Result<Carried, Ending>,
}

// Where a turn looks, unless it ends the run. No simplex is handed on: a turn alters it only once it has a vertex to add.
#[derive(Clone, Copy)]
pub struct Heading {
    round: Carried,
    dir: Vec3,
}

// What it sees there: the direction, the lower bound, and the vertex to be added.
#[derive(Clone, Copy)]
pub struct Sight {
    round: Carried,
    dir: Vec3,
    min_bound: f32,
    cso_point: Vertex,
}

#[derive(Clone, Copy)]
pub struct Ran {
    simplex: VoronoiSimplex,
    ending: Ending,
}

#[tactic(auto, unfolding(crate::specs::Carried::next_by, crate::specs::Carried::turn_by))]
fn onward(simplex: VoronoiSimplex, round: Carried) -> Turn
    ensures { turn_by binary32 result ≡ onward_with simplex (round_by binary32 round) }
{
    Turn {
        simplex,
        next: Ok(round),
    }
}

#[tactic(auto, unfolding(crate::specs::Carried::next_by, crate::specs::Carried::turn_by))]
fn ended(simplex: VoronoiSimplex, ending: Ending) -> Turn
    ensures { turn_by binary32 result ≡ ended_with simplex (result_by binary32 simplex ending) }
{
    Turn {
        simplex,
        next: Err(ending),
    }
}

// Separation is certified: the witnesses are the answer, or the direction alone.
#[tactic(auto, unfolding(crate::specs::Gjk::apart_by, crate::specs::Carried::result_by))]
fn apart_by(exact_dist: bool, prev: bool, dir: Vec3) -> Ending
    ensures { (s : VoronoiSimplex) → result_by binary32 s result ≡ apart_by binary32 exact_dist s prev dir }
{
    if exact_dist {
        return Ending::ClosestPoints(prev, dir);
    }
    Ending::Proximity(dir)
}

// Whether the origin is on the boundary, so that the witnesses describe the contact.
#[tactic(auto, unfolding(crate::specs::Gjk::touching))]
fn is_touching(q: Query, r: Carried) -> bool
    ensures { result ≡ touching binary32 (search_of binary32 q) (round_by binary32 r) }
{
    if q.exact_dist {
        return r.best_min_bound >= -q.eps_rel * number::sqrt(r.support_square);
    }
    false
}

// What stands before the loop.
fn start_of(simplex: VoronoiSimplex) -> Turn
    ensures { turn_by binary32 result ≡ start_of binary32 simplex }
{
    let Ok(projected) = reduction::project_origin(simplex) else {
        return ended(simplex, Ending::Refused);
    };
    let applied = reduction::apply_location(simplex, projected.location);
    let smaller = applied.simplex;
    let proj = projected.point;
    let Some(proj_dir) = proj.try_normalize() else {
        return ended(smaller, Ending::Intersection);
    };
    let largest = number::largest();
    let round = Carried {
        proj,
        old_dir: -proj_dir,
        max_bound: largest,
        best_min_bound: -largest,
        support_square: 0.0,
        nb_perturbs: 0,
        niter: 0,
    };
    onward(smaller, round)
}

// One turn of the Rust's loop up to the vertex that it adds. From here on the functions stand in the order of the loop's body: each ends
// the run, or returns what the next makes of it.
#[tactic(auto, unfolding(crate::specs::Carried::headed_by, crate::specs::Carried::seen_by))]
fn sight_of(q: Query, r: Carried) -> Result<Sight, Ending>
    ensures { (s : VoronoiSimplex) → seen_by binary32 (search_of binary32 q) s result ≡ turn_of binary32 (search_of binary32 q) s (round_by binary32 r) }
{
    let heading = heading_of(q, r)?;
    probed(q, heading)
}

// The direction away from the projection, unless the origin is on it.
#[tactic(auto, unfolding(crate::specs::Gjk::turn_of, crate::specs::Gjk::directed, crate::specs::Gjk::bounded_by, crate::specs::Carried::headed_by, crate::specs::Carried::result_by))]
fn heading_of(q: Query, r: Carried) -> Result<Heading, Ending>
    ensures { (s : VoronoiSimplex) → (headed_by binary32 s result ▷ probed binary32 (search_of binary32 q)) ≡ turn_of binary32 (search_of binary32 q) s (round_by binary32 r) }
{
    let unit = (-r.proj).normalize_and_length();
    let dir = unit.normalized;
    let dist = unit.length;
    if dist > number::eps_tol() {
        let mut round = r;
        round.max_bound = dist;
        if dist >= r.max_bound {
            return stagnated(q, Heading { round, dir });
        }
        return Ok(Heading { round, dir });
    }
    Err(Ending::Intersection)
}

// The upper bound did not fall: decided by the best lower bound, or the direction is perturbed.
fn stagnated(q: Query, heading: Heading) -> Result<Heading, Ending>
    ensures { (s : VoronoiSimplex) → headed_by binary32 s result ≡ stagnated binary32 (search_of binary32 q) s (round_by binary32 heading.round) heading.dir }
{
    let r = heading.round;
    if r.best_min_bound > 0.0 {
        return Err(apart_by(q.exact_dist, true, r.old_dir));
    }
    if is_touching(q, r) {
        return Err(Ending::ClosestPoints(true, r.old_dir));
    }
    if r.nb_perturbs < MAX_PERTURBATIONS {
        let seed = r.nb_perturbs + 1;
        let mut round = r;
        round.nb_perturbs = seed;
        let dir = perturbed_dir(heading.dir, seed);
        return Ok(Heading { round, dir });
    }
    Err(Ending::Intersection)
}

// The support point of `dir`, and the bounds it gives. The Rust asserts that the lower one is finite.
#[tactic(auto, unfolding(crate::specs::Gjk::probed, crate::specs::Gjk::asserted, crate::specs::Gjk::bettered, crate::specs::Carried::seen_by, crate::specs::Carried::result_by))]
fn probed(q: Query, heading: Heading) -> Result<Sight, Ending>
    ensures { (s : VoronoiSimplex) → seen_by binary32 (search_of binary32 q) s result ≡ probed binary32 (search_of binary32 q) s (round_by binary32 heading.round) heading.dir }
{
    let r = heading.round;
    let dir = heading.dir;
    let cso_point = from_shapes(q.pos12, q.g1, q.g2, dir);
    let point = cso_point.point;
    let min_bound = -dir.dot(point);
    if number::is_finite(min_bound) {
        let mut round = r;
        round.best_min_bound = number::max(r.best_min_bound, min_bound);
        round.support_square = support_square(r.support_square, point);
        let sight = Sight {
            round,
            dir,
            min_bound,
            cso_point,
        };
        return bounded(q, sight);
    }
    Err(Ending::Refused)
}

// The square of the support scale, with one point more: the larger of two roots is the root of the larger.
fn support_square(kept: f32, point: Vec3) -> f32
    ensures { root binary32 result ≡ larger (root binary32 kept) (length_v binary32 point) }
{
    number::max(kept, point.length_squared())
}

// What the bounds decide before the new vertex is added.
#[tactic(auto, unfolding(crate::specs::Gjk::bounded, crate::specs::Carried::seen_by, crate::specs::Carried::result_by))]
fn bounded(q: Query, sight: Sight) -> Result<Sight, Ending>
    ensures { (s : VoronoiSimplex) → seen_by binary32 (search_of binary32 q) s result
        ≡ (bounded binary32 (search_of binary32 q) s (round_by binary32 sight.round) sight.dir sight.min_bound ▷ λ s₁ r₁ dir₁.
        added binary32 (search_of binary32 q) s₁ r₁ dir₁ sight.cso_point ▷ λ s₂ r₂ dir₂.
        reduced binary32 (search_of binary32 q) s₂ r₂ dir₂ sight.min_bound) }
{
    let r = sight.round;
    let min_bound = sight.min_bound;
    if min_bound > q.max_dist {
        return Err(Ending::NoIntersection(sight.dir));
    }
    if !q.exact_dist && min_bound > 0.0 && r.max_bound <= q.max_dist {
        return Err(Ending::Proximity(r.old_dir));
    }
    if r.max_bound - min_bound <= q.eps_rel * r.max_bound {
        return Err(apart_by(q.exact_dist, false, sight.dir));
    }
    Ok(sight)
}

// The new vertex was added, or it adds nothing.
#[tactic(auto, unfolding(crate::specs::Carried::result_by))]
fn added_turn(q: Query, added: Added, sight: Sight) -> Turn
    ensures { turn_by binary32 result ≡ (added_by binary32 (search_of binary32 q) added.simplex added.answer (round_by binary32 sight.round) sight.dir ▷ λ s₁ r₁ dir₁.
        reduced binary32 (search_of binary32 q) s₁ r₁ dir₁ sight.min_bound) }
{
    match added.answer {
        Ok(true) => reduced_turn(q, added.simplex, sight),
        Ok(false) => stalled_turn(q, added.simplex, sight),
        Err(_) => ended(added.simplex, Ending::Refused),
    }
}

// The new vertex adds nothing: decided by the best bound, or back to the top for a perturbation.
#[tactic(auto, unfolding(crate::specs::Gjk::stalled, crate::specs::Carried::result_by))]
fn stalled_turn(q: Query, simplex: VoronoiSimplex, sight: Sight) -> Turn
    ensures { turn_by binary32 result ≡ stalled binary32 (search_of binary32 q) simplex (round_by binary32 sight.round) sight.dir }
{
    let r = sight.round;
    if r.best_min_bound > 0.0 {
        return ended(simplex, apart_by(q.exact_dist, false, sight.dir));
    }
    if is_touching(q, r) {
        return ended(simplex, Ending::ClosestPoints(false, sight.dir));
    }
    if r.nb_perturbs < MAX_PERTURBATIONS {
        return onward(simplex, r);
    }
    ended(simplex, Ending::Intersection)
}

// The vertex is in: the simplex is reduced, and the round is over.
fn reduced_turn(q: Query, simplex: VoronoiSimplex, sight: Sight) -> Turn
    ensures { turn_by binary32 result ≡ reduced binary32 (search_of binary32 q) simplex (round_by binary32 sight.round) sight.dir sight.min_bound }
{
    let Ok(projected) = reduction::project_origin(simplex) else {
        return ended(simplex, Ending::Refused);
    };
    let applied = reduction::apply_location(simplex, projected.location);
    let smaller = applied.simplex;
    if smaller.dim == 3 {
        if sight.min_bound >= number::eps_tol() {
            return ended(smaller, apart_by(q.exact_dist, true, sight.dir));
        }
        return ended(smaller, Ending::Intersection);
    }
    let mut next = sight.round;
    let niter = next.niter + 1;
    if niter == 100 {
        return ended(smaller, Ending::NoIntersection(Vec3::X));
    }
    next.proj = projected.point;
    next.old_dir = sight.dir;
    next.niter = niter;
    onward(smaller, next)
}

// The turns.
fn run_of(q: Query, simplex: VoronoiSimplex, start: Carried) -> Ran
    ensures { ran_by binary32 result ≡ run_of binary32 (search_of binary32 q) 107 simplex (round_by binary32 start) }
{
    let mut present = simplex;
    let mut r = start;
    for _ in 0..MAX_TURNS {
        match sight_of(q, r) {
            Err(ending) => {
                return Ran {
                    simplex: present,
                    ending,
                };
            }
            Ok(sight) => {
                let added = present.add_point(sight.cso_point);
                let turn = added_turn(q, added, sight);
                present = turn.simplex;
                match turn.next {
                    Err(ending) => {
                        return Ran {
                            simplex: present,
                            ending,
                        };
                    }
                    Ok(t) => r = t,
                }
            }
        }
    }
    Ran {
        simplex: present,
        ending: Ending::NoIntersection(Vec3::X),
    }
}

#[tactic(auto, unfolding(crate::specs::Gjk::closest_by))]
fn closest_by(simplex: VoronoiSimplex, prev: bool, dir: Vec3) -> Result<GJKResult, WouldPanic>
    ensures { result ≡ closest_by binary32 simplex prev dir }
{
    let witnesses = result(simplex, prev)?;
    Ok(GJKResult::ClosestPoints(witnesses.point1, witnesses.point2, dir))
}

#[tactic(auto, unfolding(crate::specs::Carried::result_by))]
fn result_of(simplex: VoronoiSimplex, ending: Ending) -> Result<GJKResult, WouldPanic>
    ensures { result ≡ result_by binary32 simplex ending }
{
    match ending {
        Ending::Intersection => Ok(GJKResult::Intersection),
        Ending::ClosestPoints(prev, dir) => closest_by(simplex, prev, dir),
        Ending::Proximity(dir) => Ok(GJKResult::Proximity(dir)),
        Ending::NoIntersection(dir) => Ok(GJKResult::NoIntersection(dir)),
        Ending::Refused => Err(WouldPanic),
    }
}

// The run's result and simplex. Refusal 2 hands the simplex back as it came in.
#[tactic(auto, unfolding(crate::specs::Gjk::finished_by, crate::specs::Gjk::gjk_number))]
fn finished(given: VoronoiSimplex, ran: Ran) -> Gjk
    ensures { result ≡ finished_by given (ran_by binary32 ran) }
{
    let simplex = ran.simplex;
    let result = result_of(simplex, ran.ending);
    match result {
        Ok(_) => Gjk { simplex, result },
        Err(_) => Gjk {
            simplex: given,
            result,
        },
    }
}

// The closest points of two shapes, or a direction that parts them; or that they meet. `pos12` is the pose of `g2` in the frame of `g1`.
pub fn closest_points(
    pos12: Pose,
    g1: Shape,
    g2: Shape,
    max_dist: f32,
    exact_dist: bool,
    simplex: VoronoiSimplex,
) -> Gjk
    ensures answer { result ≡ closest_points binary32 (from_shapes binary32 pos12 g1 g2) max_dist exact_dist simplex }
    ensures told { Told gjk_number gjk_values result.result (closest_points binary32 (from_shapes binary32 pos12 g1 g2) max_dist exact_dist simplex).result }
{
    let q = Query {
        pos12,
        g1,
        g2,
        max_dist,
        exact_dist,
        eps_rel: number::eps_rel(),
    };
    let start = start_of(simplex);
    match start.next {
        Err(ending) => {
            let ran = Ran {
                simplex: start.simplex,
                ending,
            };
            finished(simplex, ran)
        }
        Ok(r) => finished(simplex, run_of(q, start.simplex, r)),
    }
}
