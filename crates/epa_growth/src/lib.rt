// The new faces along the silhouette: `for edge in &self.silhouette` in the loop of `EPA::closest_points` of epa3.rs.
// Vertices and edges are only read here, so that they are lent beside the stores that the pushes take, whose own lists of them are empty.
#![tactic(auto)]

ghost use Rattle.epa_polytope.specs.Stores.{lend, with_vertices, with_edges};
ghost use Rattle.epa_polytope.specs.Expansion.{queue_new, grow_at, grow, grow_all};
ghost use Rattle.epa_polytope.specs.Promises.{Leaves, when, single};
ghost use Rattle.epa_stores.specs.Lent.{Kept};
ghost use Rattle.epa_growth.specs.Growth.{grown};

use epa_faces::{answer_of, made_of};
use epa_polytope::{End, Expansion, Finish, Found, Lost, Tally, Three};
use epa_pushes::{enqueue, face_id_new, push_face};
use epa_stores::{Stores, before, question_at, set_neighbour, vertex_at};

// A new face that holds the projection is queued, unless it lies nearer than the one that is expanded.
fn queue_new(
    stores: &mut Stores<'_>,
    vertices: &[f32],
    tally: Tally,
    expansion: Expansion,
    id: usize,
) -> Result<Tally, Finish>
    ensures leaves { Leaves (queue_new single expansion id) tally result (λ m k. with_vertices vertices.now (grown m stores k)) }
    ensures kept { Kept stores }
{
    let pt = vertex_at(vertices, stores.corner_at(id, 0)).point;
    let dist = stores.normal_of(id).dot(pt);
    if dist < expansion.dist {
        let end = answer_of(
            Found::NewFaceNearer,
            vertices,
            &mut *stores.ids,
            &mut *stores.floats,
            expansion.face,
        );
        return Err(Finish { end, tally });
    }
    let Some(face_id) = face_id_new(id, -dist, expansion.tol) else {
        let end = End::Nothing(Lost::KeyLater);
        return Err(Finish { end, tally });
    };
    enqueue(stores, tally, face_id.id, face_id.neg_dist)
}

// The face between the new vertex and the edge of `face` opposite its corner `opp_pt_id`.
fn grow_at(
    stores: &mut Stores<'_>,
    vertices: &[f32],
    tally: Tally,
    expansion: Expansion,
    face: usize,
    opp_pt_id: usize,
) -> Result<Tally, Finish>
    ensures leaves { Leaves (grow_at single expansion face opp_pt_id) tally result (λ m k. with_vertices vertices.now (grown m stores k)) }
    ensures kept { Kept stores }
{
    // `% 3` first, so that no sum overflows; the value is the Rust's
    let side = (opp_pt_id % 3 + 1) % 3;
    let a = stores.corner_at(face, (opp_pt_id % 3 + 2) % 3);
    let b = stores.corner_at(face, side);
    let point = expansion.point;
    let made = made_of(vertices, a, b, point);
    let new_face_id = tally.faces;
    set_neighbour(stores.ids, face, side, new_face_id);
    let corners = Three { a, b, c: point };
    // the sum wraps only where there is no room for the face
    let neighbours = Three {
        a: face,
        b: new_face_id.wrapping_add(1),
        c: before(new_face_id),
    };
    let pushed = push_face(stores, tally, corners, neighbours, made)?;
    if !made.holds {
        return Ok(pushed);
    }
    queue_new(stores, vertices, pushed, expansion, new_face_id)
}

// The new face of the edge i, if the edge's face is live.
fn grow(
    stores: &mut Stores<'_>,
    vertices: &[f32],
    edges: &[usize],
    tally: Tally,
    expansion: Expansion,
    i: usize,
) -> Result<Tally, Finish>
    ensures leaves { Leaves (grow single expansion i) tally result (λ m k. with_vertices vertices.now (with_edges edges.now (grown m stores k))) }
    ensures kept { Kept stores }
{
    let edge = question_at(edges, i);
    if stores.deleted_at(edge.face) == 0 {
        return grow_at(stores, vertices, tally, expansion, edge.face, edge.corner);
    }
    Ok(tally)
}

// The new faces of the first n edges.
fn grow_each(
    stores: &mut Stores<'_>,
    vertices: &[f32],
    edges: &[usize],
    start: Tally,
    expansion: Expansion,
    n: usize,
) -> Result<Tally, Finish>
    ensures leaves { Leaves (grow_all single expansion n 0) start result (λ m k. with_vertices vertices.now (with_edges edges.now (grown m stores k))) }
    ensures kept { Kept stores }
{
    let mut tally = start;
    for i in 0..n {
        tally = grow(stores, vertices, edges, tally, expansion, i)?;
    }
    Ok(tally)
}

// The new faces of all edges, whatever questions are pending.
pub fn grow_all(
    vertices: &[f32],
    ids: &mut [usize],
    floats: &mut [f32],
    deleted: &mut [u8],
    edges: &[usize],
    heap_ids: &mut [usize],
    heap_keys: &mut [f32],
    start: Tally,
    expansion: Expansion,
    n: usize,
) -> Result<Tally, Finish>
    ensures { Leaves (grow_all single expansion n 0) start result (λ m. lend vertices.now (when m ids) (when m floats) (when m deleted) edges.now (when m heap_ids) (when m heap_keys)) }
{
    // no vertex and no edge is written, and no question is asked
    let mut stores = Stores {
        vertices: &mut [],
        ids,
        floats,
        deleted,
        edges: &mut [],
        heap_ids,
        heap_keys,
        pending: &mut [],
    };
    grow_each(&mut stores, vertices, edges, start, expansion, n)
}
