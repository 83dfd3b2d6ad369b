// The silhouette walk without recursion: a loop over a lent store of pending questions, last in, first out. What a
// question does is as in `compute_silhouette` of epa3.rs (`epa_silhouette`), but that the two which follow from a seen
// face are put in, the second first. How many faces are live falls with each that is seen.
#![tactic(auto)]

ghost use Rattle.std.specs.Prelude.{◌<◌, ◌≡◌, false, Ok};
ghost use Rattle.epa_polytope.specs.Stores.{with_vertices, with_face_ids, with_face_floats};
ghost use Rattle.epa_polytope.specs.Silhouette.{walked};
ghost use Rattle.epa_polytope.specs.PlainWalk.{walking, walking_by, put_in, answer_question, turn, plain_walk, plain_pass};
ghost use Rattle.epa_polytope.specs.Expansion.{mesh_of, pass_by};
ghost use Rattle.epa_polytope.specs.Promises.{Reads, single, walk_of};

use epa_faces::{can_be_seen_by, facing_at};
use epa_polytope::{PlainSoFar, Question};
use epa_silhouette::{note, pass};
use epa_stores::{deleted_at, put_question, question_at, set_deleted};

// ---- a question goes in

// If none was refused before it, and there is room for it.
fn put_in(
    deleted: &[u8],
    edges: &[usize],
    pending: &mut [usize],
    sofar: PlainSoFar,
    q: Question,
) -> PlainSoFar
    ensures { walking_by deleted.now edges.now pending.new result
        ≡ put_in (walking_by deleted.now edges.now pending.old sofar) q }
{
    if sofar.short {
        return sofar;
    }
    if sofar.held < pending.len() / 2 {
        put_question(pending, sofar.held, q);
        return PlainSoFar {
            held: sofar.held + 1,
            ..sofar
        };
    }
    PlainSoFar {
        short: true,
        ..sofar
    }
}

// ---- the last question comes out, and is answered

// A deleted face does nothing; a live face that is not seen is an edge; of one that is seen the neighbours are looked up,
// and their questions go in.
fn answer_question(
    vertices: &[f32],
    ids: &[usize],
    floats: &[f32],
    deleted: &mut [u8],
    edges: &mut [usize],
    pending: &mut [usize],
    point: usize,
    sofar: PlainSoFar,
    count: usize,
    q: Question,
) -> PlainSoFar
    ensures { Reads (λ l. answer_question (mesh_of single l point) (walking_by deleted.old edges.old pending.old sofar) count q)
        (walking_by deleted.new edges.new pending.new result)
        (λ k. with_vertices vertices.now (with_face_ids ids.now (with_face_floats floats.now k))) }
{
    if deleted_at(deleted, q.face) != 0 {
        return sofar;
    }
    if can_be_seen_by(vertices, ids, floats, point, q) {
        set_deleted(deleted, q.face, 1);
        let first = facing_at(ids, q.face, (q.corner % 3 + 2) % 3, sofar.missed);
        let second = facing_at(ids, q.face, q.corner, first.missed);
        let next = PlainSoFar {
            missed: second.missed,
            ..sofar
        };
        let one = put_in(deleted, edges, pending, next, second.question);
        return put_in(deleted, edges, pending, one, first.question);
    }
    let noted = note(deleted, edges, count, sofar.missed, q);
    PlainSoFar {
        answer: noted.answer,
        missed: noted.missed,
        ..sofar
    }
}

// ---- the loop

// A turn, where there was room so far and a question is held: the last comes out, and is answered.
fn take_turn(
    vertices: &[f32],
    ids: &[usize],
    floats: &[f32],
    deleted: &mut [u8],
    edges: &mut [usize],
    pending: &mut [usize],
    point: usize,
    count: usize,
    missed: usize,
    held: usize,
) -> PlainSoFar
    requires { 0 < held }
    ensures { Reads (λ l. turn (mesh_of single l point)
        (walking (walked deleted.old edges.old missed (Ok count)) pending.old held false))
        (walking_by deleted.new edges.new pending.new result)
        (λ k. with_vertices vertices.now (with_face_ids ids.now (with_face_floats floats.now k))) }
{
    let last = held - 1;
    let q = question_at(pending, last);
    // A place that is given back is zero.
    put_question(pending, last, Question { face: 0, corner: 0 });
    let taken = PlainSoFar {
        answer: Ok(count),
        missed,
        held: last,
        short: false,
    };
    answer_question(
        vertices, ids, floats, deleted, edges, pending, point, taken, count, q,
    )
}

// Turns, while a question is held and there was room for each edge and each question. The loop carries three numbers, all
// of a `PlainSoFar` that changes while the walk goes on: a struct with a `bool` or an enum in it would be copied through
// memory at every turn.
pub fn plain_walk(
    vertices: &[f32],
    ids: &[usize],
    floats: &[f32],
    deleted: &mut [u8],
    edges: &mut [usize],
    pending: &mut [usize],
    point: usize,
    start: PlainSoFar,
) -> PlainSoFar
    ensures { Reads (λ l. plain_walk (mesh_of single l point) (walking_by deleted.old edges.old pending.old start))
        (walking_by deleted.new edges.new pending.new result)
        (λ k. with_vertices vertices.now (with_face_ids ids.now (with_face_floats floats.now k))) }
{
    let Ok(first) = start.answer else {
        return start;
    };
    if start.short {
        return start;
    }
    let mut count = first;
    let mut missed = start.missed;
    let mut held = start.held;
    while held > 0 {
        let turned = take_turn(
            vertices, ids, floats, deleted, edges, pending, point, count, missed, held,
        );
        let Ok(n) = turned.answer else {
            return turned;
        };
        if turned.short {
            return turned;
        }
        count = n;
        missed = turned.missed;
        held = turned.held;
    }
    PlainSoFar {
        answer: Ok(count),
        missed,
        held,
        short: false,
    }
}

// Three questions go in together, the last first.
pub fn plain_pass(
    vertices: &[f32],
    ids: &[usize],
    floats: &[f32],
    deleted: &mut [u8],
    edges: &mut [usize],
    pending: &mut [usize],
    point: usize,
    missed: usize,
    a: Question,
    b: Question,
    c: Question,
) -> PlainSoFar
    ensures { Reads (λ l. plain_pass (mesh_of single l point)
        (walking (walked deleted.old edges.old missed (Ok 0)) pending.old 0 false) a b c)
        (walking_by deleted.new edges.new pending.new result)
        (λ k. with_vertices vertices.now (with_face_ids ids.now (with_face_floats floats.now k))) }
{
    let start = PlainSoFar {
        answer: Ok(0),
        missed,
        held: 0,
        short: false,
    };
    let third = put_in(deleted, edges, pending, start, c);
    let second = put_in(deleted, edges, pending, third, b);
    let first = put_in(deleted, edges, pending, second, a);
    plain_walk(vertices, ids, floats, deleted, edges, pending, point, first)
}

// ---- by either walk

// The recursive walk holds no question. Which walk is a const parameter, which has to be a `bool` where the definitions have an enum: a
// program has only the walk that it asks for.
pub fn pass_by<const PLAIN: bool>(
    vertices: &[f32],
    ids: &[usize],
    floats: &[f32],
    deleted: &mut [u8],
    edges: &mut [usize],
    pending: &mut [usize],
    point: usize,
    missed: usize,
    a: Question,
    b: Question,
    c: Question,
) -> PlainSoFar
    ensures { Reads (λ l. pass_by (walk_of PLAIN) (mesh_of single l point)
        (walking (walked deleted.old edges.old missed (Ok 0)) pending.old 0 false) a b c)
        (walking_by deleted.new edges.new pending.new result)
        (λ k. with_vertices vertices.now (with_face_ids ids.now (with_face_floats floats.now k))) }
{
    if PLAIN {
        return plain_pass(
            vertices, ids, floats, deleted, edges, pending, point, missed, a, b, c,
        );
    }
    let walked = pass(
        vertices, ids, floats, deleted, edges, point, missed, a, b, c,
    );
    PlainSoFar {
        answer: walked.answer,
        missed: walked.missed,
        held: 0,
        short: false,
    }
}
