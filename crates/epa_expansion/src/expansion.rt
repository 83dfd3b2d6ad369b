// The polytope grows to a new vertex (of the body of the loop of `EPA::closest_points` what follows the test of the bound): the face is
// deleted, with those that the vertex sees, and new faces join the vertex to the silhouette.
ghost use Rattle.std.specs.Prelude.{◌≡◌};
ghost use Rattle.epa_polytope.specs.Stores.{with_vertices, with_face_ids, with_face_floats, with_deleted, with_edges, with_pending};
ghost use Rattle.epa_polytope.specs.Code.{finished_of};
ghost use Rattle.epa_polytope.specs.Expansion.{passed_tally, silhouette, expand};
ghost use Rattle.epa_polytope.specs.Promises.{Leaves, when, single, walk_of};
ghost use Rattle.epa_stores.specs.Lent.{LeavesAll, Kept};

use crate::ring::regrow;
use epa_faces::facing_at;
use epa_plain_walk::pass_by;
use epa_polytope::{End, Expansion, Finish, PlainSoFar, Store, Tally};
use epa_stores::{Stores, set_deleted};

// The tally after a pass of n edges, with so many questions still held.
fn passed(tally: Tally, n: usize, held: usize, missed: usize) -> Tally
    ensures { result ≡ passed_tally n held missed tally }
{
    Tally {
        edges: n,
        pending: held,
        most: tally.most.max(n),
        missed,
        ..tally
    }
}

// The run goes on after a pass, unless there was no place for a question, or none for an edge: then as many edges are recorded as there
// is room for.
fn finished(tally: Tally, room: usize, walked: PlainSoFar) -> Result<Tally, Finish>
    ensures { result ≡ finished_of tally room walked }
{
    let n = walked.answer.unwrap_or(room);
    let next = passed(tally, n, walked.held, walked.missed);
    if walked.short {
        let end = End::NoRoom(Store::Pending);
        return Err(Finish { end, tally: next });
    }
    if walked.answer.is_err() {
        let end = End::NoRoom(Store::Edges);
        return Err(Finish { end, tally: next });
    }
    Ok(next)
}

// The silhouette of a face, which is deleted already: its three neighbours are asked, in order.
fn silhouette<const PLAIN: bool>(
    vertices: &[f32],
    ids: &[usize],
    floats: &[f32],
    deleted: &mut [u8],
    edges: &mut [usize],
    pending: &mut [usize],
    tally: Tally,
    point: usize,
    face: usize,
) -> Result<Tally, Finish>
    ensures { Leaves (silhouette (walk_of PLAIN) single point face) tally result
        (λ m k. with_vertices vertices.now (with_face_ids ids.now
        (with_face_floats floats.now (with_deleted (when m deleted) (with_edges (when m edges) (with_pending (when m pending) k)))))) }
{
    let a = facing_at(ids, face, 0, tally.missed);
    let b = facing_at(ids, face, 1, a.missed);
    let c = facing_at(ids, face, 2, b.missed);
    let room = edges.len() / 2;
    let walked = pass_by::<PLAIN>(
        vertices, ids, floats, deleted, edges, pending, point, c.missed, a.question, b.question,
        c.question,
    );
    finished(tally, room, walked)
}

// The faces that the new vertex sees go, and new ones come.
pub fn expand<const PLAIN: bool>(
    stores: &mut Stores<'_>,
    tally: Tally,
    expansion: Expansion,
) -> Result<Tally, Finish>
    ensures leaves { LeavesAll (expand (walk_of PLAIN) single expansion) tally result stores }
    ensures kept { Kept stores }
{
    let face = expansion.face;
    let point = expansion.point;
    set_deleted(stores.deleted, face, 1);
    let lined = silhouette::<PLAIN>(
        &mut *stores.vertices,
        &mut *stores.ids,
        &mut *stores.floats,
        stores.deleted,
        stores.edges,
        stores.pending,
        tally,
        point,
        face,
    )?;
    regrow(stores, lined, expansion)
}
