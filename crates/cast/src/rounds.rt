// `minkowski_ray_cast` of gjk.rs: the start, the rounds and their ways out. A simplex is reduced by `project_origin` and `apply_location` in turn:
// a location that was found for a simplex is always taken, so the answer of applying it is not looked at (`both-in-turn` of `reduction`).
ghost use Rattle.std.specs.Prelude.{◌≡◌};
ghost use Rattle.std.specs.Float.{binary32};
ghost use Rattle.number.specs.Told.{Told};
ghost use Rattle.shape.specs.Support.{from_shapes};
ghost use Rattle.cast.specs.Cast.{search_of, onward_with, ended_with, impact, beyond, support_point, witnessed, last_chance};
ghost use Rattle.cast.specs.Cast.{lowered, clipped, min_bound_of, bounded, added, solid, reduced, probed};
ghost use Rattle.cast.specs.Cast.{turn_of, run_of, start_of, minkowski_ray_cast, cast_number, cast_values};

use crate::ray::{Ray, is_zero, ray_toi_with_halfspace};
use refusal::WouldPanic;
use shape::{Shape, Vertex, from_shapes};
use simplex::VoronoiSimplex;
use std::ops::ControlFlow::{self, Break, Continue};
use vector::{Pose, Vec3};
use witnesses::{Witnesses, result};

// The hundredth round that does not end a cast is a miss.
const MAX_ROUNDS: usize = 100;

// The time at which the ray meets the difference, and the direction there: the Rust's pair.
#[derive(Clone, Copy)]
pub struct Impact {
    pub time: f32,
    pub dir: Vec3,
}

// The Rust's `Option` of an impact, none being a miss; or the refusal.
pub type Cast = Result<Option<Impact>, WouldPanic>;

// What a cast is asked, and what it computes once.
#[derive(Clone, Copy)]
pub struct Query {
    pos12: Pose,
    g1: Shape,
    g2: Shape,
    ray: Ray,
    max_time_of_impact: f32,
    ray_length: f32,
    eps_rel: f32,
}

// What the Rust's loop carries from round to round, besides the simplex and the number of rounds.
#[derive(Clone, Copy)]
pub struct Round {
    ltoi: f32,
    curr_ray: Ray,
    ldir: Vec3,
    proj: Vec3,
    max_bound: f32,
    last_chance: bool,
}

// Where a turn looks, and the support point there.
#[derive(Clone, Copy)]
pub struct Probe {
    dir: Vec3,
    support_point: Vertex,
}

// What a part of a turn leaves: the cast goes on with a round, or it has ended.
#[derive(Clone, Copy)]
pub struct Turn {
    simplex: VoronoiSimplex,
    next: ControlFlow<Cast, Round>,
}

fn onward(simplex: VoronoiSimplex, round: Round) -> Turn
    ensures { result ≡ onward_with simplex round }
{
    Turn {
        simplex,
        next: Continue(round),
    }
}

fn ended(simplex: VoronoiSimplex, cast: Cast) -> Turn
    ensures { result ≡ ended_with simplex cast }
{
    Turn {
        simplex,
        next: Break(cast),
    }
}

// The impact at the lower bound.
#[tactic(auto, unfolding(crate::specs::Cast::impact))]
fn impact_at(q: Query, r: Round) -> Cast
    ensures { result ≡ impact binary32 (search_of binary32 q) r }
{
    Ok(Some(Impact {
        time: r.ltoi / q.ray_length,
        dir: r.ldir,
    }))
}

// Whether a lower bound is past the largest time. It is divided: a product may overflow.
#[tactic(auto, unfolding(crate::specs::Cast::beyond))]
fn is_beyond(q: Query, ltoi: f32) -> bool
    ensures { result ≡ beyond binary32 (search_of binary32 q) ltoi }
{
    ltoi / q.ray_length > q.max_time_of_impact
}

// Where the upper bound does not fall, the projection stands in for the support point.
#[tactic(auto, unfolding(crate::specs::Cast::support_point))]
fn support_point_of(q: Query, r: Round, dir: Vec3, stuck: bool) -> Vertex
    ensures { result ≡ support_point binary32 (search_of binary32 q) r dir stuck }
{
    if stuck {
        return Vertex::single_point(r.proj + r.curr_ray.origin);
    }
    from_shapes(q.pos12, q.g1, q.g2, dir)
}

// The lower bound, refined by the separation of the witnesses along the ray.
#[tactic(auto, unfolding(crate::specs::Cast::witnessed))]
fn witnessed_at(q: Query, r: Round, witnesses: Witnesses) -> Cast
    ensures { result ≡ witnessed binary32 (search_of binary32 q) r witnesses.point1 witnesses.point2 }
{
    let apart = witnesses.point1 - witnesses.point2 - q.ray.origin;
    let witness_ltoi = apart.dot(r.curr_ray.dir);
    if number::is_finite(witness_ltoi) && witness_ltoi > r.ltoi {
        if is_beyond(q, witness_ltoi) {
            return Ok(None);
        }
        let mut refined = r;
        refined.ltoi = witness_ltoi;
        return impact_at(q, refined);
    }
    impact_at(q, r)
}

// The last-chance path: the impact is accepted at the refined bound, or missed where that is past the largest time.
#[tactic(auto, unfolding(crate::specs::Cast::last_chance))]
fn last_chance_of(q: Query, simplex: VoronoiSimplex, r: Round) -> Cast
    ensures { result ≡ last_chance binary32 (search_of binary32 q) simplex r }
{
    let witnesses = result(simplex, simplex.dim == 3)?;
    witnessed_at(q, r, witnesses)
}

// A new lower bound: the ray's origin moves, and the simplex with it.
#[tactic(auto, unfolding(crate::specs::Cast::lowered))]
fn lowered_turn(q: Query, simplex: VoronoiSimplex, r: Round, dir: Vec3, t: f32) -> Turn
    ensures { result ≡ lowered binary32 (search_of binary32 q) simplex r dir t }
{
    let ltoi = r.ltoi + t;
    if is_beyond(q, ltoi) {
        return ended(simplex, Ok(None));
    }
    let along = r.curr_ray.dir;
    let shift = along * t;
    // a simplex is never refused, so the answer is not looked at (`moved-done` of proofs/Simplices.antt)
    let moved = simplex.modify_pnts(-shift);
    let origin = r.curr_ray.origin + shift;
    let restored = number::largest();
    let next = Round {
        ltoi,
        curr_ray: Ray { origin, dir: along },
        ldir: dir,
        proj: r.proj,
        max_bound: restored,
        last_chance: false,
    };
    onward(moved.simplex, next)
}

// The ray is clipped on the halfspace of the support point.
#[tactic(auto, unfolding(crate::specs::Cast::clipped))]
fn clipped_turn(q: Query, simplex: VoronoiSimplex, r: Round, probe: Probe) -> Turn
    ensures { result ≡ clipped binary32 (search_of binary32 q) simplex r probe.dir probe.support_point }
{
    let dir = probe.dir;
    let curr_ray = r.curr_ray;
    let along = dir.dot(curr_ray.dir);
    match ray_toi_with_halfspace(probe.support_point.point, dir, curr_ray) {
        Some(t) => {
            if along < 0.0 && t > 0.0 {
                return lowered_turn(q, simplex, r, dir, t);
            }
            onward(simplex, r)
        }
        None => {
            if along > number::eps_tol() {
                return ended(simplex, Ok(None));
            }
            onward(simplex, r)
        }
    }
}

#[tactic(auto, unfolding(crate::specs::Cast::min_bound_of))]
fn min_bound_of(r: Round, probe: Probe) -> f32
    ensures { result ≡ min_bound_of binary32 r probe.dir probe.support_point }
{
    let dir = probe.dir;
    -dir.dot(probe.support_point.point - r.curr_ray.origin)
}

// What is decided before the support point is added. The Rust asserts that the lower bound is finite.
#[tactic(auto, unfolding(crate::specs::Cast::bounded))]
fn bounded_turn(q: Query, simplex: VoronoiSimplex, r: Round, min_bound: f32) -> Turn
    ensures { result ≡ bounded binary32 (search_of binary32 q) simplex r min_bound }
{
    if r.last_chance {
        return ended(simplex, Ok(None));
    }
    if !number::is_finite(min_bound) {
        return ended(simplex, Err(WouldPanic));
    }
    if r.max_bound - min_bound <= q.eps_rel * r.max_bound {
        return ended(simplex, Ok(None));
    }
    onward(simplex, r)
}

// Whether the point is added or not, the round goes on.
#[tactic(auto, unfolding(crate::specs::Cast::added))]
fn added_turn(simplex: VoronoiSimplex, r: Round, support_point: Vertex) -> Turn
    ensures { result ≡ added binary32 simplex r support_point }
{
    let origin = r.curr_ray.origin;
    let grown = simplex.add_point(support_point.translate(-origin));
    let larger = grown.simplex;
    match grown.answer {
        Ok(_) => onward(larger, r),
        Err(refused) => ended(larger, Err(refused)),
    }
}

// The origin is inside of the difference, unless the lower bound says that it is not.
#[tactic(auto, unfolding(crate::specs::Cast::solid))]
fn solid_at(q: Query, r: Round, min_bound: f32, support_point: Vertex) -> Cast
    ensures { result ≡ solid binary32 (search_of binary32 q) r min_bound support_point }
{
    let origin = r.curr_ray.origin;
    let scale = number::max(support_point.point.length(), origin.length());
    if min_bound >= number::eps_tol() * number::max(scale, 1.0) {
        return Ok(None);
    }
    impact_at(q, r)
}

// The simplex is reduced, and the round is over.
fn reduced_turn(
    q: Query,
    simplex: VoronoiSimplex,
    r: Round,
    min_bound: f32,
    support_point: Vertex,
) -> Turn
    ensures { result ≡ reduced binary32 (search_of binary32 q) simplex r min_bound support_point }
{
    let Ok(projected) = reduction::project_origin(simplex) else {
        return ended(simplex, Err(WouldPanic));
    };
    let applied = reduction::apply_location(simplex, projected.location);
    let smaller = applied.simplex;
    if smaller.dim == 3 {
        return ended(smaller, solid_at(q, r, min_bound, support_point));
    }
    let mut next = r;
    next.proj = projected.point;
    onward(smaller, next)
}

// The rest of a turn, from the support point on.
#[tactic(auto, unfolding(crate::specs::Cast::probed))]
fn probed_turn(q: Query, simplex: VoronoiSimplex, r: Round, probe: Probe) -> Turn
    ensures { result ≡ probed binary32 (search_of binary32 q) simplex r probe.dir probe.support_point }
{
    if r.last_chance && r.ltoi > 0.0 {
        return ended(simplex, last_chance_of(q, simplex, r));
    }
    let support_point = probe.support_point;
    let clip = clipped_turn(q, simplex, r, probe);
    let Continue(c) = clip.next else {
        return clip;
    };
    let min_bound = min_bound_of(c, probe);
    let bound = bounded_turn(q, clip.simplex, c, min_bound);
    let Continue(b) = bound.next else {
        return bound;
    };
    let grown = added_turn(bound.simplex, b, support_point);
    let Continue(g) = grown.next else {
        return grown;
    };
    reduced_turn(q, grown.simplex, g, min_bound, support_point)
}

// One turn of the Rust's loop. Where the length is a NaN or infinite, `normalize_and_length` gives 0, which is not above the
// tolerance: an impact.
#[tactic(auto, unfolding(crate::specs::Cast::turn_of, crate::specs::Cast::upper_bound))]
fn turn_of(q: Query, simplex: VoronoiSimplex, r: Round) -> Turn
    ensures { result ≡ turn_of binary32 (search_of binary32 q) simplex r }
{
    let unit = (-r.proj).normalize_and_length();
    let dir = unit.normalized;
    let dist = unit.length;
    if dist > number::eps_tol() {
        let stuck = dist >= r.max_bound;
        let support_point = support_point_of(q, r, dir, stuck);
        let mut next = r;
        next.max_bound = dist;
        next.last_chance = r.last_chance | stuck;
        let probe = Probe { dir, support_point };
        return probed_turn(q, simplex, next, probe);
    }
    ended(simplex, impact_at(q, r))
}

// The rounds.
fn run_of(q: Query, simplex: VoronoiSimplex, start: Round) -> Cast
    ensures { result ≡ run_of binary32 (search_of binary32 q) 100 simplex start }
{
    let mut present = simplex;
    let mut r = start;
    for _ in 0..MAX_ROUNDS {
        let turn = turn_of(q, present, r);
        match turn.next {
            Break(cast) => {
                return cast;
            }
            Continue(t) => {
                present = turn.simplex;
                r = t;
            }
        }
    }
    Ok(None)
}

// What stands before the loop: a new simplex of the support point against the ray, and its projection. `reset` takes a new simplex
// always (`reset-done` of proofs/Start.antt), so its outcome is not looked at.
fn start_of(q: Query) -> Turn
    ensures { result ≡ start_of binary32 (search_of binary32 q) }
{
    let origin = q.ray.origin;
    let along = q.ray.dir / q.ray_length;
    let dir = -along;
    let support_point = from_shapes(q.pos12, q.g1, q.g2, dir);
    let begun = VoronoiSimplex::new().reset(support_point.translate(-origin));
    let one = begun.simplex;
    let Ok(projected) = reduction::project_origin(one) else {
        return ended(one, Err(WouldPanic));
    };
    let applied = reduction::apply_location(one, projected.location);
    let simplex = applied.simplex;
    let round = Round {
        ltoi: 0.0,
        curr_ray: Ray { origin, dir: along },
        ldir: dir,
        proj: projected.point,
        max_bound: number::largest(),
        last_chance: false,
    };
    onward(simplex, round)
}

// The time at which a ray meets the difference `g1 - pos12 * g2`, with the direction there; or a miss.
#[tactic(auto, unfolding(crate::specs::Cast::minkowski_ray_cast, crate::specs::Cast::after))]
pub fn minkowski_ray_cast(
    pos12: Pose,
    g1: Shape,
    g2: Shape,
    ray: Ray,
    max_time_of_impact: f32,
) -> Cast
    ensures answer { result ≡ minkowski_ray_cast binary32 (from_shapes binary32 pos12 g1 g2) ray max_time_of_impact }
    ensures told { Told cast_number cast_values result (minkowski_ray_cast binary32 (from_shapes binary32 pos12 g1 g2) ray max_time_of_impact) }
{
    let ray_length = ray.dir.length();
    if is_zero(ray_length) {
        return Ok(None);
    }
    let q = Query {
        pos12,
        g1,
        g2,
        ray,
        max_time_of_impact,
        ray_length,
        eps_rel: number::eps_rel(),
    };
    let start = start_of(q);
    match start.next {
        Break(cast) => cast,
        Continue(r) => run_of(q, start.simplex, r),
    }
}
