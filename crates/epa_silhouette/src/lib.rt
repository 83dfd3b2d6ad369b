// The silhouette walk: `compute_silhouette` of epa3.rs. It deletes the faces that are seen from the new vertex, and
// records an edge at each live face that is not. How many faces are live falls with each that is seen.
#![tactic(auto)]

ghost use Rattle.std.specs.Prelude.{◌≡◌, Ok};
ghost use Rattle.epa_polytope.specs.Stores.{with_vertices, with_face_ids, with_face_floats};
ghost use Rattle.epa_polytope.specs.Silhouette.{walked, walked_by, noted, walk, pass};
ghost use Rattle.epa_polytope.specs.Expansion.{mesh_of};
ghost use Rattle.epa_polytope.specs.Promises.{Reads, single};

use epa_faces::{can_be_seen_by, facing_at};
use epa_polytope::{Question, WalkSoFar};
use epa_stores::{deleted_at, put_question, set_deleted};
use refusal::NoRoom;

// An edge is recorded, if there is room.
pub fn note(
    deleted: &[u8],
    edges: &mut [usize],
    count: usize,
    missed: usize,
    q: Question,
) -> WalkSoFar
    ensures { walked_by deleted.now edges.new result ≡ noted (walked deleted.now edges.old missed (Ok count)) count q }
{
    let answer = if count < edges.len() / 2 {
        put_question(edges, count, q);
        Ok(count + 1)
    } else {
        Err(NoRoom)
    };
    WalkSoFar { answer, missed }
}

// A question, after a walk that has come `sofar`: where that found no room nothing is done. Both lookups of a face
// that is seen come before its first neighbour is asked, as in the Rust.
pub fn compute_silhouette(
    vertices: &[f32],
    ids: &[usize],
    floats: &[f32],
    deleted: &mut [u8],
    edges: &mut [usize],
    point: usize,
    sofar: WalkSoFar,
    q: Question,
) -> WalkSoFar
    ensures { Reads (λ l. walk (mesh_of single l point) (walked_by deleted.old edges.old sofar) q) (walked_by deleted.new edges.new result)
        (λ k. with_vertices vertices.now (with_face_ids ids.now (with_face_floats floats.now k))) }
{
    let Ok(count) = sofar.answer else {
        return sofar;
    };
    if deleted_at(deleted, q.face) != 0 {
        return sofar;
    }
    if can_be_seen_by(vertices, ids, floats, point, q) {
        set_deleted(deleted, q.face, 1);
        let first = facing_at(ids, q.face, (q.corner % 3 + 2) % 3, sofar.missed);
        let second = facing_at(ids, q.face, q.corner, first.missed);
        let entered = WalkSoFar {
            answer: Ok(count),
            missed: second.missed,
        };
        let r = compute_silhouette(
            vertices,
            ids,
            floats,
            deleted,
            edges,
            point,
            entered,
            first.question,
        );
        compute_silhouette(
            vertices,
            ids,
            floats,
            deleted,
            edges,
            point,
            r,
            second.question,
        )
    } else {
        note(deleted, edges, count, sofar.missed, q)
    }
}

// Three questions, in order, after their lookups.
pub fn pass(
    vertices: &[f32],
    ids: &[usize],
    floats: &[f32],
    deleted: &mut [u8],
    edges: &mut [usize],
    point: usize,
    missed: usize,
    a: Question,
    b: Question,
    c: Question,
) -> WalkSoFar
    ensures { Reads (λ l. pass (mesh_of single l point) (walked deleted.old edges.old missed (Ok 0)) a b c)
        (walked_by deleted.new edges.new result)
        (λ k. with_vertices vertices.now (with_face_ids ids.now (with_face_floats floats.now k))) }
{
    let start = WalkSoFar {
        answer: Ok(0),
        missed,
    };
    let r1 = compute_silhouette(vertices, ids, floats, deleted, edges, point, start, a);
    let r2 = compute_silhouette(vertices, ids, floats, deleted, edges, point, r1, b);
    compute_silhouette(vertices, ids, floats, deleted, edges, point, r2, c)
}
