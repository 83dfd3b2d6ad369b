// The projection on a triangle in space (parry3d's `point_triangle.rs`), the weights of a location,
// and whether a triangle's corners lie on a line (`triangle.rs`).
#![tactic(auto, unfolding(crate::specs::Triangle::project_triangle, crate::specs::Triangle::located, crate::specs::Triangle::or_else, crate::specs::Triangle::differences, crate::specs::Triangle::vertex_region, crate::specs::Triangle::dots, crate::specs::Triangle::check_edges, crate::specs::Triangle::on_vertex, crate::specs::Triangle::on_edge, crate::specs::Triangle::face_side, crate::specs::Triangle::on_face, crate::specs::Triangle::barycentric_coordinates, crate::specs::Triangle::vertex_weights, crate::specs::Triangle::edge_weights))]

ghost use Rattle.std.specs.Prelude.{◌≡◌};
ghost use Rattle.std.specs.Float.{binary32};
ghost use Rattle.number.specs.Told.{Told};
ghost use Rattle.projection.specs.Triangle.{project_triangle, is_affinely_dependent, barycentric_coordinates};
ghost use Rattle.projection.specs.Triangle.{differences, dots, on_vertex, vertex_region, check_edges, face_side, on_edge, on_face};
ghost use Rattle.projection.specs.Triangle.{weights, vertex_weights, edge_weights, barycentric_number, barycentric_values};

use crate::point_query::Projection;
use crate::relative::relative_eq;
use refusal::WouldPanic;
use vector::Vec3;

#[repr(C)]
#[derive(Clone, Copy)]
pub struct Triangle {
    pub a: Vec3,
    pub b: Vec3,
    pub c: Vec3,
}

// At a corner; on an edge (0: ab, 1: bc, 2: ac) with the weights of its ends; on a side of the face
// (0 or 1) with the weights of a, b and c; or solid, where their sum before the division is 0.
#[derive(Clone, Copy)]
pub enum TrianglePointLocation {
    OnVertex(u32),
    OnEdge(u32, f32, f32),
    OnFace(u32, f32, f32, f32),
    OnSolid,
}

pub type TriangleProjection = Projection<TrianglePointLocation>;

// The weights of the three corners.
#[derive(Clone, Copy)]
pub struct BarycentricCoordinates {
    pub u: f32,
    pub v: f32,
    pub w: f32,
}

// The edges, and the way to `pt` from each corner.
#[derive(Clone, Copy)]
pub struct Differences {
    ab: Vec3,
    ac: Vec3,
    bc: Vec3,
    ap: Vec3,
    bp: Vec3,
    cp: Vec3,
}

#[derive(Clone, Copy)]
pub struct Dots {
    ab_ap: f32,
    ac_ap: f32,
    ab_bp: f32,
    ac_bp: f32,
    ab_cp: f32,
    ac_cp: f32,
}

// The edge whose region holds the point; or the face's side, and its weights before the division.
#[derive(Clone, Copy)]
pub enum ProjectionInfo {
    OnAB,
    OnAC,
    OnBC,
    OnFace(u32, f32, f32, f32),
}

impl Triangle {
    pub fn project_local_point_and_get_location(self, pt: Vec3) -> TriangleProjection
        ensures { result ≡ project_triangle binary32 self pt }
    {
        let v = self.differences(pt);
        let k = v.dots();
        if let Some(found) = self.vertex_region(k) {
            return found;
        }
        match v.check_edges(k) {
            ProjectionInfo::OnAB => on_edge(0, self.a, v.ab, k.ab_ap / v.ab.length_squared()),
            ProjectionInfo::OnAC => on_edge(2, self.a, v.ac, k.ac_ap / v.ac.length_squared()),
            ProjectionInfo::OnBC => on_edge(
                1,
                self.b,
                v.bc,
                v.bc.dot(v.bp) / v.bc.length_squared(),
            ),
            ProjectionInfo::OnFace(side, va, vb, vc) => {
                on_face(pt, self.a, v.ab, v.ac, side, va, vb, vc)
            }
        }
    }

    // Whether the corners lie on a line, up to a tolerance.
    pub fn is_affinely_dependent(self) -> bool
        ensures { result ≡ is_affinely_dependent binary32 self }
    {
        let default_epsilon = number::epsilon();
        let e = default_epsilon * 100.0;
        let ab = self.b - self.a;
        let ac = self.c - self.a;
        let q = ab.cross(ac).length_squared();
        relative_eq(q, 0.0, e * e, default_epsilon)
    }

    fn differences(self, pt: Vec3) -> Differences
        ensures { result ≡ differences binary32 self pt }
    {
        Differences {
            ab: self.b - self.a,
            ac: self.c - self.a,
            bc: self.c - self.b,
            ap: pt - self.a,
            bp: pt - self.b,
            cp: pt - self.c,
        }
    }

    // The Voronoi regions of the corners: the corner whose region holds the point.
    fn vertex_region(self, k: Dots) -> Option<TriangleProjection>
        ensures { result ≡ vertex_region self k }
    {
        if k.ab_ap <= 0.0 && k.ac_ap <= 0.0 {
            return Some(on_vertex(0, self.a));
        }
        if k.ab_bp >= 0.0 && k.ac_bp <= k.ab_bp {
            return Some(on_vertex(1, self.b));
        }
        if k.ac_cp >= 0.0 && k.ab_cp <= k.ac_cp {
            return Some(on_vertex(2, self.c));
        }
        None
    }
}

impl Differences {
    fn dots(self) -> Dots
        ensures { result ≡ dots binary32 self }
    {
        Dots {
            ab_ap: self.ab.dot(self.ap),
            ac_ap: self.ac.dot(self.ap),
            ab_bp: self.ab.dot(self.bp),
            ac_bp: self.ac.dot(self.bp),
            ab_cp: self.ab.dot(self.cp),
            ac_cp: self.ac.dot(self.cp),
        }
    }

    // The Voronoi regions of the edges, in the order ab, ac, bc; else the face.
    fn check_edges(self, k: Dots) -> ProjectionInfo
        ensures { result ≡ check_edges binary32 self k }
    {
        let n = self.ab.cross(self.ac);
        let vc = n.dot(self.ab.cross(self.ap));
        if vc < 0.0 && k.ab_ap >= 0.0 && k.ab_bp <= 0.0 {
            return ProjectionInfo::OnAB;
        }
        let vb = -n.dot(self.ac.cross(self.cp));
        if vb < 0.0 && k.ac_ap >= 0.0 && k.ac_cp <= 0.0 {
            return ProjectionInfo::OnAC;
        }
        let va = n.dot(self.bc.cross(self.bp));
        if va < 0.0 && k.ac_bp - k.ab_bp >= 0.0 && k.ab_cp - k.ac_cp >= 0.0 {
            return ProjectionInfo::OnBC;
        }
        ProjectionInfo::OnFace(face_side(n.dot(self.ap)), va, vb, vc)
    }
}

fn on_vertex(i: u32, corner: Vec3) -> TriangleProjection
    ensures { result ≡ on_vertex i corner }
{
    Projection {
        point: corner,
        location: TrianglePointLocation::OnVertex(i),
    }
}

// The point a + ab * v of the edge i.
fn on_edge(i: u32, a: Vec3, ab: Vec3, v: f32) -> TriangleProjection
    ensures { result ≡ on_edge binary32 i a ab v }
{
    Projection {
        point: a + ab * v,
        location: TrianglePointLocation::OnEdge(i, 1.0 - v, v),
    }
}

fn face_side(n_ap: f32) -> u32
    ensures { result ≡ face_side n_ap }
{
    if n_ap >= 0.0 { 0 } else { 1 }
}

// The point of the face by its weights, or solid where their sum is zero.
fn on_face(
    pt: Vec3,
    a: Vec3,
    ab: Vec3,
    ac: Vec3,
    side: u32,
    va: f32,
    vb: f32,
    vc: f32,
) -> TriangleProjection
    ensures { result ≡ on_face binary32 pt a ab ac side va vb vc }
{
    let sum = va + vb + vc;
    if sum != 0.0 {
        let denom = 1.0 / sum;
        let v = vb * denom;
        let w = vc * denom;
        return Projection {
            point: a + ab * v + ac * w,
            location: TrianglePointLocation::OnFace(side, 1.0 - v - w, v, w),
        };
    }
    Projection {
        point: pt,
        location: TrianglePointLocation::OnSolid,
    }
}

impl TrianglePointLocation {
    // None for a solid; refused at a location that no triangle has, where the Rust panics.
    pub fn barycentric_coordinates(self) -> Result<Option<BarycentricCoordinates>, WouldPanic>
        ensures answer { result ≡ barycentric_coordinates self }
        ensures told { Told barycentric_number barycentric_values result (barycentric_coordinates self) }
    {
        match self {
            TrianglePointLocation::OnVertex(i) => vertex_weights(i),
            TrianglePointLocation::OnEdge(i, u, v) => edge_weights(i, u, v),
            TrianglePointLocation::OnFace(_, u, v, w) => Ok(Some(weights(u, v, w))),
            TrianglePointLocation::OnSolid => Ok(None),
        }
    }
}

// 1 at the corner i
fn vertex_weights(i: u32) -> Result<Option<BarycentricCoordinates>, WouldPanic>
    ensures { result ≡ vertex_weights i }
{
    match i {
        0 => Ok(Some(weights(1.0, 0.0, 0.0))),
        1 => Ok(Some(weights(0.0, 1.0, 0.0))),
        2 => Ok(Some(weights(0.0, 0.0, 1.0))),
        _ => Err(WouldPanic),
    }
}

// u and v at the ends of the edge i
fn edge_weights(i: u32, u: f32, v: f32) -> Result<Option<BarycentricCoordinates>, WouldPanic>
    ensures { result ≡ edge_weights i u v }
{
    match i {
        0 => Ok(Some(weights(u, v, 0.0))),
        1 => Ok(Some(weights(0.0, u, v))),
        2 => Ok(Some(weights(u, 0.0, v))),
        _ => Err(WouldPanic),
    }
}

fn weights(u: f32, v: f32, w: f32) -> BarycentricCoordinates
    ensures { result ≡ weights u v w }
{
    BarycentricCoordinates { u, v, w }
}
