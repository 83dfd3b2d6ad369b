// The pushes of the polytope's run (`self.vertices.push`, `self.faces.push`, `self.heap.push` and `FaceId::new` of epa3.rs), over lists that
// the caller lends, each refused where its store has no place left. What each leaves and answers is a step of the run that the crate
// `epa_polytope` defines.
#![tactic(auto)]

ghost use Rattle.std.specs.Prelude.{◌≡◌, ◌+◌, ◌*◌, ◌≤◌, length};
ghost use Rattle.epa_polytope.specs.Stores.{face_room, put_face};
ghost use Rattle.epa_polytope.specs.Steps.{push_vertex, push_face, enqueue, face_id_new, queue_face};
ghost use Rattle.epa_stores.specs.Lent.{held, LeavesAll, Kept};

use epa_polytope::{End, FaceId, Finish, Lost, Made, Store, Tally, Three};
use epa_stores::{Stores, put_made, put_vertex, set_deleted};
use shape::Vertex;

// A vertex is pushed, where there is room.
pub fn push_vertex(stores: &mut Stores<'_>, tally: Tally, v: Vertex) -> Result<Tally, Finish>
    ensures leaves { LeavesAll (push_vertex v) tally result stores }
    ensures kept { Kept stores }
{
    let n = tally.vertices;
    if stores.vertices.len() / 9 <= n {
        let end = End::NoRoom(Store::Vertices);
        return Err(Finish { end, tally });
    }
    put_vertex(stores.vertices, n, v);
    Ok(Tally {
        vertices: n + 1,
        ..tally
    })
}

// For how many faces there is room.
fn face_room(stores: &Stores<'_>) -> usize
    ensures { result ≡ face_room (held stores.now) }
{
    let places = stores.ids.len() / 6;
    places
        .min(stores.floats.len() / 6)
        .min(stores.deleted.len())
}

// A face's six numbers are written at the place n, which the list has.
fn put_face(ids: &mut [usize], n: usize, corners: Three, neighbours: Three)
    requires { n * 6 + 6 ≤ length ids.old }
    ensures { ids.new ≡ put_face ids.old n corners neighbours }
{
    let at = n * 6;
    ids[at] = corners.a;
    ids[at + 1] = corners.b;
    ids[at + 2] = corners.c;
    ids[at + 3] = neighbours.a;
    ids[at + 4] = neighbours.b;
    ids[at + 5] = neighbours.c;
}

// A live face is pushed, where there is room.
pub fn push_face(
    stores: &mut Stores<'_>,
    tally: Tally,
    corners: Three,
    neighbours: Three,
    made: Made,
) -> Result<Tally, Finish>
    ensures leaves { LeavesAll (push_face corners neighbours made) tally result stores }
    ensures kept { Kept stores }
{
    let n = tally.faces;
    if face_room(stores) <= n {
        let end = End::NoRoom(Store::Faces);
        return Err(Finish { end, tally });
    }
    put_face(stores.ids, n, corners, neighbours);
    put_made(stores.floats, n, made);
    set_deleted(stores.deleted, n, 0);
    Ok(Tally {
        faces: n + 1,
        ..tally
    })
}

// A face is queued by its key, where there is room.
pub fn enqueue(
    stores: &mut Stores<'_>,
    tally: Tally,
    id: usize,
    neg_dist: f32,
) -> Result<Tally, Finish>
    ensures leaves { LeavesAll (enqueue id neg_dist) tally result stores }
    ensures kept { Kept stores }
{
    let pushed = heap::push(stores.heap_ids, stores.heap_keys, tally.heap, id, neg_dist);
    let Ok(heap) = pushed else {
        let end = End::NoRoom(Store::Heap);
        return Err(Finish { end, tally });
    };
    Ok(Tally { heap, ..tally })
}

// `FaceId::new`: a key above the tolerance is refused. A NaN is not above it.
pub fn face_id_new(id: usize, neg_dist: f32, tol: f32) -> Option<FaceId>
    ensures { result ≡ face_id_new id neg_dist tol }
{
    if neg_dist > tol {
        return None;
    }
    Some(FaceId { id, neg_dist })
}

// `self.heap.push(FaceId::new(id, neg_dist, tol)?)`.
pub fn queue_face(
    stores: &mut Stores<'_>,
    tally: Tally,
    why: Lost,
    tol: f32,
    id: usize,
    neg_dist: f32,
) -> Result<Tally, Finish>
    ensures leaves { LeavesAll (queue_face why tol id neg_dist) tally result stores }
    ensures kept { Kept stores }
{
    let Some(face) = face_id_new(id, neg_dist, tol) else {
        let end = End::Nothing(why);
        return Err(Finish { end, tally });
    };
    enqueue(stores, tally, face.id, face.neg_dist)
}
