// The steps that the operations are made of, on a simplex and places that there are. Private: they ask
// something of their caller.
ghost use Rattle.std.specs.Prelude.{◌≡◌, ◌+◌, ◌<◌, ◌≤◌};
ghost use Rattle.std.specs.List.{list_any, fold};
ghost use Rattle.std.specs.Float.{binary32};
ghost use Rattle.simplex.specs.Simplex.{swap_in, saved_in, grown_in};
ghost use Rattle.simplex.specs.Simplex.{near_point, near_line, near_plane, near_simplex};
ghost use Rattle.vector.specs.Vector.{zero_f, equal_v};
ghost use Rattle.simplex.specs.Simplex.{reset_in, greater_sq_len, translated_in};

use crate::voronoi_simplex::VoronoiSimplex;
use shape::Vertex;
use vector::Vec3;

// `swap`: two vertices and their previous places change places.
#[tactic(auto, unfolding(crate::specs::Simplex::swap_in))]
pub(crate) fn swap_in(s: VoronoiSimplex, i1: usize, i2: usize) -> VoronoiSimplex
    requires { (i1 < 4) × (i2 < 4) }
    ensures { result ≡ swap_in s i1 i2 }
{
    let mut t = s;
    t.vertices.swap(i1, i2);
    t.prev_vertices.swap(i1, i2);
    t
}

// What `add_point` keeps of the simplex before it looks at the new point.
#[tactic(auto, unfolding(crate::specs::Simplex::saved_in))]
pub(crate) fn saved_in(s: VoronoiSimplex) -> VoronoiSimplex
    ensures { result ≡ saved_in s }
{
    let mut t = s;
    let proj = s.proj;
    t.prev_dim = s.dim;
    t.prev_proj = proj;
    t.prev_vertices = [0, 1, 2, 3];
    t
}

// The simplex with one vertex more.
#[tactic(auto, unfolding(crate::specs::Simplex::grown_in))]
pub(crate) fn grown_in(s: VoronoiSimplex, pt: Vertex) -> VoronoiSimplex
    requires { s.dim < 3 }
    ensures { result ≡ grown_in s pt }
{
    let mut t = s;
    let dim = s.dim + 1;
    t.dim = dim;
    t.vertices[dim] = pt;
    t
}

// Whether `pt` adds nothing to a point, a line, a plane.
#[tactic(auto, unfolding(crate::specs::Simplex::near_point))]
fn near_point(a: Vertex, pt: Vertex) -> bool
    ensures { result ≡ near_point binary32 a pt }
{
    (a - pt).length_squared() < number::eps_tol()
}

#[tactic(auto, unfolding(crate::specs::Simplex::near_line))]
fn near_line(a: Vertex, b: Vertex, pt: Vertex) -> bool
    ensures { result ≡ near_line binary32 a b pt }
{
    let ab = b - a;
    let ac = pt - a;
    ab.cross(ac).length_squared() < number::eps_tol()
}

#[tactic(auto, unfolding(crate::specs::Simplex::near_plane))]
fn near_plane(a: Vertex, b: Vertex, c: Vertex, pt: Vertex) -> bool
    ensures { result ≡ near_plane binary32 a b c pt }
{
    let ab = b - a;
    let ac = c - a;
    let ap = pt - a;
    let n = ab.cross(ac).normalize();
    number::abs(n.dot(ap)) < number::eps_tol()
}

// Whether `add_point` answers false, at dimension 0, 1 or 2.
#[tactic(auto, unfolding(crate::specs::Simplex::near_simplex))]
pub(crate) fn near_simplex(s: VoronoiSimplex, pt: Vertex) -> bool
    ensures { result ≡ near_simplex binary32 s pt }
{
    let a = s.vertices[0];
    if s.dim == 0 {
        return near_point(a, pt);
    }
    let b = s.vertices[1];
    if s.dim == 1 {
        return near_line(a, b, pt);
    }
    let c = s.vertices[2];
    near_plane(a, b, c, pt)
}

// `reset`: the weights and the previous ones stay old.
#[tactic(auto, unfolding(crate::specs::Simplex::reset_in))]
pub(crate) fn reset_in(s: VoronoiSimplex, pt: Vertex) -> VoronoiSimplex
    ensures { result ≡ reset_in s pt }
{
    let mut t = s;
    t.dim = 0;
    t.prev_dim = 0;
    t.vertices[0] = pt;
    t
}

// Whether one of `vertices` has the point `pt`.
#[tactic(auto, using(crate::proofs::Vertices::equal_parts))]
pub(crate) fn has_point(vertices: &[Vertex], pt: Vec3) -> bool
    ensures { result ≡ list_any (λ v. equal_v v.point pt) vertices.now }
{
    vertices.iter().any(
        |v: &Vertex| -> bool
            ensures { result ≡ equal_v v.now.point pt }
        { v.point == pt },
    )
}

// The squared length of a vertex's point where it is greater than `most`, and `most` elsewhere.
#[tactic(auto, unfolding(crate::specs::Simplex::greater_sq_len))]
fn greater_sq_len(most: f32, v: Vertex) -> f32
    ensures { result ≡ greater_sq_len binary32 most v }
{
    let norm = v.point.length_squared();
    if norm > most { norm } else { most }
}

// The greatest squared length of `vertices`, from 0 on.
pub(crate) fn max_sq_len_in(vertices: &[Vertex]) -> f32
    ensures { result ≡ fold (greater_sq_len binary32) zero_f vertices.now }
{
    vertices
        .iter()
        .fold(0.0, |most, v| greater_sq_len(most, *v))
}

pub(crate) fn translated_in(s: VoronoiSimplex, dir: Vec3) -> VoronoiSimplex
    requires { s.dim ≤ 3 }
    ensures { result ≡ translated_in binary32 s dir (s.dim + 1) }
{
    let end = s.dim + 1;
    let mut t = s;
    for i in 0..end {
        t.vertices[i] = t.vertices[i].translate(dir);
    }
    t
}
