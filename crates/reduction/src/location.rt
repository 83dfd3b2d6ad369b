// Where the origin projects on a simplex: the first half of `project_origin_and_reduce`. The simplex stays as it is.
#![tactic(auto, unfolding(crate::specs::Reduction::segment_location, crate::specs::Reduction::triangle_location, crate::specs::Reduction::tetrahedron_location, crate::specs::Reduction::locate_segment, crate::specs::Reduction::locate_triangle, crate::specs::Reduction::locate_tetrahedron, crate::specs::Reduction::find_location, crate::specs::Reduction::project_origin))]

ghost use Rattle.std.specs.Prelude.{◌≡◌};
ghost use Rattle.std.specs.Float.{binary32};
ghost use Rattle.number.specs.Told.{Told};
ghost use Rattle.reduction.specs.Reduction.{segment_location, triangle_location, tetrahedron_location};
ghost use Rattle.reduction.specs.Reduction.{locate_segment, locate_triangle, locate_tetrahedron, find_location, project_origin, projected_number, projected_values};

use projection::{Projection, Segment, SegmentPointLocation, Triangle, TrianglePointLocation};
use refusal::WouldPanic;
use simplex::VoronoiSimplex;
use tetrahedron::{Tetrahedron, TetrahedronPointLocation};
use vector::Vec3;

// A location on a simplex of any dimension: a vertex, an edge with two weights, a face with three, or solid.
#[derive(Clone, Copy)]
pub enum Location {
    OnVertex(u32),
    OnEdge(u32, f32, f32),
    OnFace(u32, f32, f32, f32),
    OnSolid,
}

// Where the origin projects: its point and location.
pub type Projected = Projection<Location>;

// A segment's one edge is edge 0.
impl From<SegmentPointLocation> for Location {
    ghost from_gives = { λ l r. r ≡ segment_location l };

    fn from(location: SegmentPointLocation) -> Location {
        match location {
            SegmentPointLocation::OnVertex(i) => Location::OnVertex(i),
            SegmentPointLocation::OnEdge(u, v) => Location::OnEdge(0, u, v),
        }
    }
}

// The Rust's locations on a triangle and on a tetrahedron are two types, since an edge or a face of one number is not the same on both.
impl From<TrianglePointLocation> for Location {
    ghost from_gives = { λ l r. r ≡ triangle_location l };

    fn from(location: TrianglePointLocation) -> Location {
        match location {
            TrianglePointLocation::OnVertex(i) => Location::OnVertex(i),
            TrianglePointLocation::OnEdge(i, u, v) => Location::OnEdge(i, u, v),
            TrianglePointLocation::OnFace(i, u, v, w) => Location::OnFace(i, u, v, w),
            TrianglePointLocation::OnSolid => Location::OnSolid,
        }
    }
}

impl From<TetrahedronPointLocation> for Location {
    ghost from_gives = { λ l r. r ≡ tetrahedron_location l };

    fn from(location: TetrahedronPointLocation) -> Location {
        match location {
            TetrahedronPointLocation::OnVertex(i) => Location::OnVertex(i),
            TetrahedronPointLocation::OnEdge(i, u, v) => Location::OnEdge(i, u, v),
            TetrahedronPointLocation::OnFace(i, u, v, w) => Location::OnFace(i, u, v, w),
            TetrahedronPointLocation::OnSolid => Location::OnSolid,
        }
    }
}

// The projection, its location as one on a simplex.
fn located<L: Into<Location>>(proj: Projection<L>) -> Projected
    ensures point { result.point ≡ proj.point }
    ensures location { L.converts proj.location result.location }
{
    Projection {
        point: proj.point,
        location: proj.location.into(),
    }
}

fn locate_segment(a: Vec3, b: Vec3) -> Result<Projected, WouldPanic>
    ensures { result ≡ locate_segment binary32 a b }
{
    let segment = Segment { a, b };
    let proj = segment.project_local_point_and_get_location(Vec3::ZERO)?;
    Ok(located(proj))
}

fn locate_triangle(a: Vec3, b: Vec3, c: Vec3) -> Projected
    ensures { result ≡ locate_triangle binary32 a b c }
{
    let triangle = Triangle { a, b, c };
    located(triangle.project_local_point_and_get_location(Vec3::ZERO))
}

fn locate_tetrahedron(a: Vec3, b: Vec3, c: Vec3, d: Vec3) -> Result<Projected, WouldPanic>
    ensures { result ≡ locate_tetrahedron binary32 a b c d }
{
    let tetrahedron = Tetrahedron { a, b, c, d };
    let proj = tetrahedron.project_local_point_and_get_location(Vec3::ZERO)?;
    Ok(located(proj))
}

// By the dimension.
fn find_location(s: VoronoiSimplex) -> Result<Projected, WouldPanic>
    ensures { result ≡ find_location binary32 s }
{
    let [a, b, c, d] = s.vertices;
    match s.dim {
        0 => Ok(Projection {
            point: a.point,
            location: Location::OnVertex(0),
        }),
        1 => locate_segment(a.point, b.point),
        2 => Ok(locate_triangle(a.point, b.point, c.point)),
        _ => locate_tetrahedron(a.point, b.point, c.point, d.point),
    }
}

// The origin's projection on the simplex, and its location. Refused where the value is no simplex, and where the Rust panics.
pub fn project_origin(simplex: VoronoiSimplex) -> Result<Projected, WouldPanic>
    ensures answer { result ≡ project_origin binary32 simplex }
    ensures told { Told projected_number projected_values result (project_origin binary32 simplex) }
{
    if simplex.is_simplex() {
        find_location(simplex)
    } else {
        Err(WouldPanic)
    }
}
