// A live face was popped (the body of the loop of `EPA::closest_points` to the test of the bound): the vertex farthest along its normal is
// pushed, and the run ends at the best face, or the polytope grows to that vertex.
ghost use Rattle.std.specs.Prelude.{◌≡◌};
ghost use Rattle.std.specs.Float.{binary32};
ghost use Rattle.vector.specs.declared.vec3.Vec3.{Vec3};
ghost use Rattle.shape.specs.declared.vertex.Vertex.{Vertex};
ghost use Rattle.epa_polytope.specs.Run.{bettered, has_converged, is_stuck, settle, visit};
ghost use Rattle.epa_polytope.specs.Promises.{visit_out, entry_of, single, walk_of};
ghost use Rattle.epa_stores.specs.Lent.{GivesAll, Kept, pair_by};

use crate::expansion::expand;
use epa_faces::answer_of;
use epa_polytope::{Best, Expansion, FaceId, Finish, Found, Tally, Visited};
use epa_pushes::push_vertex;
use epa_stores::Stores;
use shape::Pair;

// The best face and bound after a candidate.
fn better(best: Best, face: usize, candidate: f32) -> Best
    ensures { result ≡ bettered best face candidate }
{
    if candidate < best.bound {
        return Best {
            face,
            bound: candidate,
            last: best.last,
        };
    }
    best
}

// Whether the best bound is within the tolerance.
fn has_converged(bound: f32, dist: f32) -> bool
    ensures { result ≡ has_converged binary32 bound dist }
{
    bound - dist < number::polytope_tol()
}

// Whether the last face was as far, and the candidate is below the bound.
fn is_stuck(dist: f32, last: f32, candidate: f32, bound: f32) -> bool
    ensures { result ≡ is_stuck binary32 dist last candidate bound }
{
    (number::abs(dist - last) < number::epsilon()) & (candidate < bound)
}

// The candidate is known, of a new vertex `point`: the run ends at the best face, or the polytope grows to that vertex. No direction is
// asked of the shapes any more, so that it does so whatever they would answer.
fn settle<const PLAIN: bool>(
    stores: &mut Stores<'_>,
    tally: Tally,
    tol: f32,
    best: Best,
    face_id: FaceId,
    point: usize,
    candidate: f32,
) -> Result<Visited, Finish>
    ensures leaves { (supp : Vec3 → Vertex) → GivesAll visit_out (settle (record { numbers = single; supp = supp; walk_by = walk_of PLAIN }) tol best (entry_of face_id) point candidate)
        tally result stores }
    ensures kept { Kept stores }
{
    let face = face_id.id;
    let dist = -face_id.neg_dist;
    let best1 = better(best, face, candidate);
    if has_converged(best1.bound, dist) {
        let end = answer_of(
            Found::Converged,
            &mut *stores.vertices,
            &mut *stores.ids,
            &mut *stores.floats,
            best1.face,
        );
        return Err(Finish { end, tally });
    }
    if is_stuck(dist, best.last, candidate, best1.bound) {
        let end = answer_of(
            Found::Stuck,
            &mut *stores.vertices,
            &mut *stores.ids,
            &mut *stores.floats,
            best1.face,
        );
        return Err(Finish { end, tally });
    }
    let expansion = Expansion {
        face,
        dist,
        point,
        tol,
    };
    let next = expand::<PLAIN>(stores, tally, expansion)?;
    let best2 = Best {
        last: dist,
        ..best1
    };
    Ok(Visited {
        best: best2,
        tally: next,
    })
}

// The vertex farthest along the face's normal is pushed.
pub fn visit<const PLAIN: bool>(
    stores: &mut Stores<'_>,
    tally: Tally,
    pair: &Pair,
    tol: f32,
    best: Best,
    face_id: FaceId,
) -> Result<Visited, Finish>
    ensures leaves { GivesAll visit_out (visit (pair_by (walk_of PLAIN) pair.now) tol best (entry_of face_id)) tally result stores }
    ensures kept { Kept stores }
{
    let normal = stores.normal_of(face_id.id);
    let cso_point = pair.support_point(normal);
    let point = tally.vertices;
    let next = push_vertex(stores, tally, cso_point)?;
    let candidate = cso_point.point.dot(normal);
    settle::<PLAIN>(stores, next, tol, best, face_id, point, candidate)
}
