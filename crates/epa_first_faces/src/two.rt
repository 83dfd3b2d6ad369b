// The two faces of a start from two or three vertices (from "Initialization" of `EPA::closest_points` of epa3.rs, and
// `orthonormal_subspace_basis` of math/mod.rs).
ghost use Rattle.std.specs.Prelude.{◌≡◌, eqb};
ghost use Rattle.std.specs.Float.{binary32};
ghost use Rattle.vector.specs.Vector.{normalize_v};
ghost use Rattle.epa_polytope.specs.Steps.{do_if};
ghost use Rattle.epa_polytope.specs.Start.{across, third, two_faces, start_two};
ghost use Rattle.epa_polytope.specs.Promises.{single};
ghost use Rattle.epa_polytope.specs.Code.{queue_both};
ghost use Rattle.epa_stores.specs.Lent.{LeavesAll, Kept, pair_world};

use crate::pairs::push_two;
use epa_faces::made_of;
use epa_polytope::{End, Finish, Site, Tally, Three};
use epa_pushes::{enqueue, push_vertex};
use epa_stores::Stores;
use shape::Pair;
use vector::Vec3;

// A vector across v, of any length.
fn across_unscaled(v: Vec3) -> Vec3
    ensures { normalize_v binary32 result ≡ across binary32 v }
{
    if number::abs(v.x) > number::abs(v.z) {
        return Vec3::new(-v.y, v.x, 0.0);
    }
    Vec3::new(0.0, -v.z, v.y)
}

// A unit vector across v: the first that `orthonormal_subspace_basis` finds.
fn across_of(v: Vec3) -> Vec3
    ensures { result ≡ across binary32 v }
{
    across_unscaled(v).normalize()
}

// Two vertices get a third, in a direction across them. Where they span none, the Rust panics at `vertices[2]`.
fn third(stores: &mut Stores<'_>, tally: Tally, pair: &Pair) -> Result<Tally, Finish>
    ensures leaves { LeavesAll (third (pair_world pair.now)) tally result stores }
    ensures kept { Kept stores }
{
    let p0 = stores.vertex_at(0).point;
    let dpt = stores.vertex_at(1).point - p0;
    let v = dpt.normalize_or_zero();
    if v == Vec3::ZERO {
        let end = End::Panics(Site::NoThirdVertex);
        return Err(Finish { end, tally });
    }
    let pt = pair.support_point(across_of(v));
    push_vertex(stores, tally, pt)
}

// Two vertices get a third; three are enough.
fn with_third(stores: &mut Stores<'_>, tally: Tally, pair: &Pair) -> Result<Tally, Finish>
    ensures leaves { LeavesAll (do_if (eqb tally.vertices 2) (third (pair_world pair.now))) tally result stores }
    ensures kept { Kept stores }
{
    if tally.vertices == 2 {
        return third(stores, tally, pair);
    }
    Ok(tally)
}

// Both faces are queued, in order; the Rust gives each the key 0, however far it lies, which no tolerance refuses.
fn queue_both(stores: &mut Stores<'_>, tally: Tally) -> Result<Tally, Finish>
    ensures leaves { LeavesAll queue_both tally result stores }
    ensures kept { Kept stores }
{
    let next = enqueue(stores, tally, 0, 0.0)?;
    enqueue(stores, next, 1, 0.0)
}

// Two faces, back to back.
fn two_faces(stores: &mut Stores<'_>, tally: Tally) -> Result<Tally, Finish>
    ensures leaves { LeavesAll (two_faces single) tally result stores }
    ensures kept { Kept stores }
{
    let m1 = made_of(&mut *stores.vertices, 0, 1, 2);
    let m2 = made_of(&mut *stores.vertices, 0, 2, 1);
    let pts1 = Three { a: 0, b: 1, c: 2 };
    let pts2 = Three { a: 0, b: 2, c: 1 };
    let adj1 = Three { a: 1, b: 1, c: 1 };
    let adj2 = Three { a: 0, b: 0, c: 0 };
    let made = push_two(stores, tally, pts1, adj1, m1, pts2, adj2, m2)?;
    queue_both(stores, made)
}

// Two or three vertices: two faces.
pub fn start_two(stores: &mut Stores<'_>, tally: Tally, pair: &Pair) -> Result<Tally, Finish>
    ensures leaves { LeavesAll (start_two (pair_world pair.now)) tally result stores }
    ensures kept { Kept stores }
{
    let grown = with_third(stores, tally, pair)?;
    two_faces(stores, grown)
}
