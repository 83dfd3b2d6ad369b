// The vertices that a run starts from, and the tolerance of its keys (from "Initialization" of `EPA::closest_points`).
ghost use Rattle.std.specs.Prelude.{◌≡◌, ◌+◌, ◌≤◌};
ghost use Rattle.std.specs.Float.{binary32};
ghost use Rattle.epa_polytope.specs.Start.{push_points, direction, far_from, bootstrap, scale_of, dist_tol};
ghost use Rattle.epa_polytope.specs.Code.{second_of, simplex_vertices};
ghost use Rattle.epa_stores.specs.Lent.{LeavesAll, Kept, held, pair_world};

use epa_polytope::{End, Finish, Found, Site, Tally};
use epa_pushes::push_vertex;
use epa_stores::Stores;
use shape::{Pair, Vertex};
use simplex::VoronoiSimplex;
use vector::Vec3;

// The vertices of the simplex, in order.
fn push_points(
    stores: &mut Stores<'_>,
    start: Tally,
    simplex: VoronoiSimplex,
) -> Result<Tally, Finish>
    requires { simplex.dim ≤ 3 }
    ensures leaves { LeavesAll (push_points simplex (simplex.dim + 1) 0) start result stores }
    ensures kept { Kept stores }
{
    let mut tally = start;
    for i in 0..simplex.dim + 1 {
        tally = push_vertex(stores, tally, simplex.vertices[i])?;
    }
    Ok(tally)
}

// X, Y, Z, and their negatives.
fn direction_of(i: usize) -> Vec3
    ensures { result ≡ direction i }
{
    match i {
        0 => Vec3::X,
        1 => Vec3::Y,
        2 => Vec3::Z,
        3 => -Vec3::X,
        4 => -Vec3::Y,
        _ => -Vec3::Z,
    }
}

// Whether a vertex lies far enough from p.
fn is_far_from(p: Vec3, v: Vertex) -> bool
    ensures { result ≡ far_from binary32 p v }
{
    let sep_tol = number::eps_tol();
    let away = v.point - p;
    away.length_squared() > sep_tol * sep_tol
}

// The vertex of the first of the six directions that lies far enough from p.
fn second_vertex(pair: &Pair, p: Vec3) -> Option<Vertex>
    ensures { result ≡ second_of (pair_world pair.now) p }
{
    let mut i = 0;
    // the loop over candidates yields by `break`: the law of this function's shape
    loop {
        if i == 6 {
            break None;
        }
        let pt = pair.support_point(direction_of(i));
        if is_far_from(p, pt) {
            break Some(pt);
        }
        i += 1;
    }
}

// A single vertex gets a second one.
fn bootstrap(stores: &mut Stores<'_>, tally: Tally, pair: &Pair) -> Result<Tally, Finish>
    ensures leaves { LeavesAll (bootstrap (pair_world pair.now)) tally result stores }
    ensures kept { Kept stores }
{
    let v = stores.vertex_at(0);
    let Some(pt) = second_vertex(pair, v.point) else {
        let end = End::Answers(Found::SinglePoint, v.orig1, v.orig2, Vec3::Y);
        return Err(Finish { end, tally });
    };
    push_vertex(stores, tally, pt)
}

// The vertices that a run starts from, but for the third of a start from two. That the value given is a simplex is tested before all else.
pub fn start_vertices(
    stores: &mut Stores<'_>,
    tally: Tally,
    pair: &Pair,
    simplex: VoronoiSimplex,
) -> Result<Tally, Finish>
    ensures leaves { LeavesAll (simplex_vertices (pair_world pair.now) simplex) tally result stores }
    ensures kept { Kept stores }
{
    if !simplex.is_simplex() {
        let end = End::Panics(Site::NotASimplex);
        return Err(Finish { end, tally });
    }
    let pushed = push_points(stores, tally, simplex)?;
    if simplex.dim == 0 {
        return bootstrap(stores, pushed, pair);
    }
    Ok(pushed)
}

// The greatest length of the first n vertices, and 0 at least.
fn scale_of(stores: &Stores<'_>, n: usize) -> f32
    ensures { result ≡ scale_of binary32 (held stores.now).vertices n }
{
    // a root keeps the order, so the greatest length is the root of the greatest square: one root for all vertices
    let mut greatest = 0.0;
    for i in 0..n {
        let square = stores.vertex_at(i).point.length_squared();
        greatest = number::max(greatest, square);
    }
    number::sqrt(greatest)
}

// The tolerance of the keys.
pub fn dist_tol(stores: &Stores<'_>, n: usize) -> f32
    ensures { result ≡ dist_tol binary32 (held stores.now).vertices n }
{
    let scale = scale_of(stores, n);
    number::eps_tol() * number::max(scale, 1.0)
}
