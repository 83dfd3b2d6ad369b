// Faces: `Face` of epa3.rs, with `ccw_face_normal` of utils. What each function returns is a definition of the crate `epa_polytope`, at binary32,
// whatever the lists hold that it is not lent.
#![tactic(auto)]

ghost use Rattle.std.specs.Prelude.{◌≡◌};
ghost use Rattle.std.specs.Float.{binary32};
ghost use Rattle.epa_polytope.specs.Face.{face_new};
ghost use Rattle.epa_polytope.specs.Promises.{Reads};
ghost use Rattle.epa_polytope.specs.Stores.{vertex_at, with_vertices, with_face_ids, with_face_floats};
ghost use Rattle.epa_polytope.specs.Silhouette.{next_ccw_pt_id, facing_from};
ghost use Rattle.epa_polytope.specs.Steps.{weighted, answer_of};
ghost use Rattle.epa_polytope.specs.Expansion.{can_be_seen_by};

mod face;

use epa_polytope::{End, Facing, Found, Made, Question};
use epa_stores::{corner_at, neighbour_at, normal_of, vertex_at, weights_of};
use face::face_new;
use projection::Triangle;
use vector::Vec3;

// `Face::new` of three vertices.
pub fn made_of(vertices: &[f32], a: usize, b: usize, c: usize) -> Made
    ensures { result ≡ face_new binary32 (vertex_at vertices.now a).point (vertex_at vertices.now b).point
        (vertex_at vertices.now c).point }
{
    let p0 = vertex_at(vertices, a).point;
    let p1 = vertex_at(vertices, b).point;
    let p2 = vertex_at(vertices, c).point;
    face_new(p0, p1, p2)
}

// The sum of three points by their weights.
#[tactic(auto, unfolding(epa_polytope::specs::Steps::weighted))]
fn weighted_sum(u: Vec3, a: Vec3, b: Vec3, c: Vec3) -> Vec3
    ensures { result ≡ weighted binary32 u a b c }
{
    a * u.x + b * u.y + c * u.z
}

// `Face::closest_points` of the face i, with its normal.
#[tactic(auto, unfolding(epa_polytope::specs::Steps::answer_of))]
pub fn answer_of(why: Found, vertices: &[f32], ids: &[usize], floats: &[f32], i: usize) -> End
    ensures { Reads (λ l. answer_of binary32 why l i) result
        (λ k. with_vertices vertices.now (with_face_ids ids.now (with_face_floats floats.now k))) }
{
    let a = vertex_at(vertices, corner_at(ids, i, 0));
    let b = vertex_at(vertices, corner_at(ids, i, 1));
    let c = vertex_at(vertices, corner_at(ids, i, 2));
    let u = weights_of(floats, i);
    let point1 = weighted_sum(u, a.orig1, b.orig1, c.orig1);
    let point2 = weighted_sum(u, a.orig2, b.orig2, c.orig2);
    End::Answers(why, point1, point2, normal_of(floats, i))
}

// `next_ccw_pt_id`: the corner after that of the face which is the vertex `id`, if one is.
#[tactic(auto, unfolding(epa_polytope::specs::Silhouette::next_ccw_pt_id))]
pub fn next_ccw_pt_id(ids: &[usize], face: usize, id: usize) -> Option<usize>
    ensures { result ≡ next_ccw_pt_id ids.now face id }
{
    if corner_at(ids, face, 0) == id {
        return Some(1);
    }
    if corner_at(ids, face, 1) == id {
        return Some(2);
    }
    if corner_at(ids, face, 2) == id {
        return Some(0);
    }
    None
}

// The question to the neighbour k of the face, at corner 0 where the lookup misses, and the lookups that have missed with its own.
pub fn facing_at(ids: &[usize], face: usize, k: usize, missed: usize) -> Facing
    ensures { result ≡ facing_from ids.now face k missed }
{
    let next = neighbour_at(ids, face, k);
    let found = next_ccw_pt_id(ids, next, corner_at(ids, face, k));
    Facing {
        question: Question {
            face: next,
            corner: found.unwrap_or(0),
        },
        missed: missed.wrapping_add(usize::from(found.is_none())),
    }
}

// `can_be_seen_by`: whether the face of a question is seen from the vertex `point`. Its side opposite the question's corner is the one
// that the walk came across.
pub fn can_be_seen_by(
    vertices: &[f32],
    ids: &[usize],
    floats: &[f32],
    point: usize,
    question: Question,
) -> bool
    ensures { Reads (λ l. can_be_seen_by binary32 l point question) result
        (λ k. with_vertices vertices.now (with_face_ids ids.now (with_face_floats floats.now k))) }
{
    let face = question.face;
    let corner = question.corner;
    let pt = vertex_at(vertices, point).point;
    let p0 = vertex_at(vertices, corner_at(ids, face, corner)).point;
    let away = (pt - p0).dot(normal_of(floats, face));
    // the Rust's `||`: the other corners are read only where this test fails
    if away >= -number::eps_tol() {
        return true;
    }
    // `% 3` first, so that no sum overflows; the value is the Rust's
    let p1 = vertex_at(vertices, corner_at(ids, face, (corner % 3 + 1) % 3)).point;
    let p2 = vertex_at(vertices, corner_at(ids, face, (corner % 3 + 2) % 3)).point;
    let tri = Triangle {
        a: p1,
        b: p2,
        c: pt,
    };
    tri.is_affinely_dependent()
}
