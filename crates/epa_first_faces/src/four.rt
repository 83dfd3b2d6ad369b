// The four faces of a start from four vertices (from "Initialization" of `EPA::closest_points` of epa3.rs).
ghost use Rattle.std.specs.Prelude.{◌≡◌, cond};
ghost use Rattle.std.specs.Float.{binary32};
ghost use Rattle.epa_polytope.specs.Start.{exchanged, winds_inward, four_faces, queue_start, queue_four, start_four};
ghost use Rattle.epa_polytope.specs.Promises.{single};
ghost use Rattle.epa_polytope.specs.Code.{queue_two};
ghost use Rattle.epa_stores.specs.Lent.{LeavesAll, Kept};

use crate::pairs::push_two;
use epa_faces::made_of;
use epa_polytope::{End, Finish, Lost, Made, Tally, Three};
use epa_pushes::queue_face;
use epa_stores::{Stores, put_vertex, vertex_at};

// Whether the faces of four vertices would have their normals inward.
fn winds_inward(vertices: &[f32]) -> bool
    ensures { result ≡ winds_inward binary32 vertices.now }
{
    let p0 = vertex_at(vertices, 0).point;
    let dp1 = vertex_at(vertices, 1).point - p0;
    let dp2 = vertex_at(vertices, 2).point - p0;
    let dp3 = vertex_at(vertices, 3).point - p0;
    dp1.cross(dp2).dot(dp3) > 0.0
}

// Vertices 1 and 2 are exchanged.
fn exchange(vertices: &mut [f32])
    ensures { vertices.new ≡ exchanged vertices.old }
{
    let v1 = vertex_at(vertices, 1);
    let v2 = vertex_at(vertices, 2);
    put_vertex(vertices, 1, v2);
    put_vertex(vertices, 2, v1);
}

// Four vertices whose faces would have their normals inward are made to wind outward.
fn wind_outward(vertices: &mut [f32])
    ensures { vertices.new ≡ cond (winds_inward binary32 vertices.old) (exchanged vertices.old) vertices.old }
{
    if winds_inward(vertices) {
        exchange(vertices);
    }
}

// Four faces, each the neighbour of the others.
fn four_faces(
    stores: &mut Stores<'_>,
    tally: Tally,
    m1: Made,
    m2: Made,
    m3: Made,
    m4: Made,
) -> Result<Tally, Finish>
    ensures leaves { LeavesAll (four_faces m1 m2 m3 m4) tally result stores }
    ensures kept { Kept stores }
{
    let pts1 = Three { a: 0, b: 1, c: 2 };
    let pts2 = Three { a: 1, b: 3, c: 2 };
    let pts3 = Three { a: 0, b: 2, c: 3 };
    let pts4 = Three { a: 0, b: 3, c: 1 };
    let adj1 = Three { a: 3, b: 1, c: 2 };
    let adj2 = Three { a: 3, b: 2, c: 0 };
    let adj3 = Three { a: 0, b: 1, c: 3 };
    let adj4 = Three { a: 2, b: 1, c: 0 };
    let next = push_two(stores, tally, pts1, adj1, m1, pts2, adj2, m2)?;
    push_two(stores, next, pts3, adj3, m3, pts4, adj4, m4)
}

// A starting face is queued if it holds the projection, by its distance at the vertex of its own number.
fn queue_start(
    stores: &mut Stores<'_>,
    tally: Tally,
    tol: f32,
    id: usize,
    holds: bool,
) -> Result<Tally, Finish>
    ensures leaves { LeavesAll (queue_start single tol id holds) tally result stores }
    ensures kept { Kept stores }
{
    if holds {
        let dist = stores.normal_of(id).dot(stores.vertex_at(id).point);
        return queue_face(stores, tally, Lost::KeyAtStart, tol, id, -dist);
    }
    Ok(tally)
}

// Two starting faces, one after the other; the second is left out where the first ends the run.
fn queue_two(
    stores: &mut Stores<'_>,
    tally: Tally,
    tol: f32,
    first: usize,
    h1: bool,
    second: usize,
    h2: bool,
) -> Result<Tally, Finish>
    ensures leaves { LeavesAll (queue_two single tol first h1 second h2) tally result stores }
    ensures kept { Kept stores }
{
    let next = queue_start(stores, tally, tol, first, h1)?;
    queue_start(stores, next, tol, second, h2)
}

// Those of the four faces that hold the projection are queued; one has to.
fn queue_four(
    stores: &mut Stores<'_>,
    tally: Tally,
    tol: f32,
    h1: bool,
    h2: bool,
    h3: bool,
    h4: bool,
) -> Result<Tally, Finish>
    ensures leaves { LeavesAll (queue_four single tol h1 h2 h3 h4) tally result stores }
    ensures kept { Kept stores }
{
    let two = queue_two(stores, tally, tol, 0, h1, 1, h2)?;
    let four = queue_two(stores, two, tol, 2, h3, 3, h4)?;
    if h1 | h2 | h3 | h4 {
        return Ok(four);
    }
    let end = End::Nothing(Lost::NoneHolds);
    Err(Finish { end, tally: four })
}

// Four vertices: four faces.
pub fn start_four(stores: &mut Stores<'_>, tally: Tally, tol: f32) -> Result<Tally, Finish>
    ensures leaves { LeavesAll (start_four single tol) tally result stores }
    ensures kept { Kept stores }
{
    wind_outward(stores.vertices);
    let m1 = made_of(&mut *stores.vertices, 0, 1, 2);
    let m2 = made_of(&mut *stores.vertices, 1, 3, 2);
    let m3 = made_of(&mut *stores.vertices, 0, 2, 3);
    let m4 = made_of(&mut *stores.vertices, 0, 3, 1);
    let made = four_faces(stores, tally, m1, m2, m3, m4)?;
    queue_four(stores, made, tol, m1.holds, m2.holds, m3.holds, m4.holds)
}
