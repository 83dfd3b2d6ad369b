// The projection of a point on a tetrahedron, taken as solid, and where on it the projection lies (point_tetrahedron.rs).
// The tests stand in the Rust's order, and the first that holds answers.
#![tactic(auto, unfolding(crate::specs::Tetrahedron::project_tetrahedron, crate::specs::Tetrahedron::or_solid, crate::specs::Tetrahedron::differences, crate::specs::Tetrahedron::vertex_region, crate::specs::Tetrahedron::check_edges, crate::specs::Tetrahedron::check_faces, crate::specs::Tetrahedron::face_abc, crate::specs::Tetrahedron::face_abd, crate::specs::Tetrahedron::face_acd, crate::specs::Tetrahedron::face_bcd, crate::specs::Tetrahedron::on_vertex, crate::specs::Tetrahedron::check_edge, crate::specs::Tetrahedron::on_edge, crate::specs::Tetrahedron::check_face, crate::specs::Tetrahedron::by_normal, crate::specs::Tetrahedron::on_face))]

ghost use Rattle.std.specs.Prelude.{◌≡◌};
ghost use Rattle.std.specs.Float.{binary32};
ghost use Rattle.number.specs.Told.{Told};
ghost use Rattle.tetrahedron.specs.Tetrahedron.{project_tetrahedron, tetrahedron_number, tetrahedron_values};
ghost use Rattle.tetrahedron.specs.Tetrahedron.{differences, on_vertex, vertex_region, on_edge, check_edge, check_edges};
ghost use Rattle.tetrahedron.specs.Tetrahedron.{on_face, check_face, face_abc, face_abd, face_acd, face_bcd, check_faces};

// The Rust's locals, as types.
mod locals;

use locals::{Differences, Dots, EdgeCheck, Edges, Sides};
use projection::Projection;
use refusal::WouldPanic;
use vector::Vec3;

#[repr(C)]
#[derive(Clone, Copy)]
pub struct Tetrahedron {
    pub a: Vec3,
    pub b: Vec3,
    pub c: Vec3,
    pub d: Vec3,
}

// At a corner; on an edge (0: ab, 1: ac, 2: ad, 3: bc, 4: bd, 5: cd) with the weights of its ends; on
// a face (0: abc, 1: abd, 2: acd, 3: bcd) with those of its corners; or inside.
#[derive(Clone, Copy)]
pub enum TetrahedronPointLocation {
    OnVertex(u32),
    OnEdge(u32, f32, f32),
    OnFace(u32, f32, f32, f32),
    OnSolid,
}

pub type TetrahedronProjection = Projection<TetrahedronPointLocation>;

impl Tetrahedron {
    // Refused where the Rust asserts.
    pub fn project_local_point_and_get_location(
        self,
        pt: Vec3,
    ) -> Result<TetrahedronProjection, WouldPanic>
        ensures answer { result ≡ project_tetrahedron binary32 self pt }
        ensures told { Told tetrahedron_number tetrahedron_values result (project_tetrahedron binary32 self pt) }
    {
        let v = self.differences(pt);
        let k = v.dots();
        if let Some(found) = self.vertex_region(k) {
            return Ok(found);
        }
        let e = self.check_edges(v, k);
        if let Some(found) = e.first() {
            return Ok(found);
        }
        if let Some(found) = self.check_faces(v, e.sides())? {
            return Ok(found);
        }
        Ok(Projection {
            point: pt,
            location: TetrahedronPointLocation::OnSolid,
        })
    }

    fn differences(self, pt: Vec3) -> Differences
        ensures { result ≡ differences binary32 self pt }
    {
        Differences {
            ab: self.b - self.a,
            ac: self.c - self.a,
            ad: self.d - self.a,
            ap: pt - self.a,
            bc: self.c - self.b,
            bd: self.d - self.b,
            bp: pt - self.b,
            cd: self.d - self.c,
            cp: pt - self.c,
            dp: pt - self.d,
        }
    }

    // The Voronoi regions of the corners: the corner whose region holds the point.
    fn vertex_region(self, k: Dots) -> Option<TetrahedronProjection>
        ensures { result ≡ vertex_region self k }
    {
        if k.ap_ab <= 0.0 && k.ap_ac <= 0.0 && k.ap_ad <= 0.0 {
            return Some(on_vertex(0, self.a));
        }
        if k.bp_bc <= 0.0 && k.bp_bd <= 0.0 && k.bp_ab >= 0.0 {
            return Some(on_vertex(1, self.b));
        }
        if k.cp_cd <= 0.0 && k.cp_bc >= 0.0 && k.cp_ac >= 0.0 {
            return Some(on_vertex(2, self.c));
        }
        if k.dp_ad >= 0.0 && k.dp_bd >= 0.0 && k.dp_cd >= 0.0 {
            return Some(on_vertex(3, self.d));
        }
        None
    }

    // The six calls of `check_edge`. Each also gives two numbers that the faces' tests read.
    fn check_edges(self, v: Differences, k: Dots) -> Edges
        ensures { result ≡ check_edges binary32 self v k }
    {
        let n = v.normals();
        let mabc = -n.abc;
        let mabd = -n.abd;
        let macd = -n.acd;
        let mbcd = -n.bcd;
        let ab = check_edge(0, self.a, n.abc, n.abd, v.ap, v.ab, k.ap_ab, k.bp_ab);
        let ac = check_edge(1, self.a, n.acd, mabc, v.ap, v.ac, k.ap_ac, k.cp_ac);
        let ad = check_edge(2, self.a, mabd, macd, v.ap, v.ad, k.ap_ad, k.dp_ad);
        let bc = check_edge(3, self.b, n.abc, n.bcd, v.bp, v.bc, k.bp_bc, k.cp_bc);
        let bd = check_edge(4, self.b, mbcd, n.abd, v.bp, v.bd, k.bp_bd, k.dp_bd);
        let cd = check_edge(5, self.c, n.acd, n.bcd, v.cp, v.cd, k.cp_cd, k.dp_cd);
        Edges {
            ab,
            ac,
            ad,
            bc,
            bd,
            cd,
        }
    }

    // The four calls of `check_face`, up to the first that finds something.
    fn check_faces(
        self,
        v: Differences,
        s: Sides,
    ) -> Result<Option<TetrahedronProjection>, WouldPanic>
        ensures { result ≡ check_faces binary32 self v s }
    {
        if let Some(found) = self.face_abc(v, s)? {
            return Ok(Some(found));
        }
        if let Some(found) = self.face_abd(v, s)? {
            return Ok(Some(found));
        }
        if let Some(found) = self.face_acd(v, s)? {
            return Ok(Some(found));
        }
        self.face_bcd(v, s)
    }

    fn face_abc(self, v: Differences, s: Sides) -> Result<Option<TetrahedronProjection>, WouldPanic>
        ensures { result ≡ face_abc binary32 self v s }
    {
        check_face(
            0, self.a, self.b, self.c, v.ap, v.bp, v.cp, v.ab, v.ac, v.ad, s.dabc, s.dbca, s.dacb,
        )
    }

    fn face_abd(self, v: Differences, s: Sides) -> Result<Option<TetrahedronProjection>, WouldPanic>
        ensures { result ≡ face_abd binary32 self v s }
    {
        check_face(
            1, self.a, self.b, self.d, v.ap, v.bp, v.dp, v.ab, v.ad, v.ac, s.dadb, s.dabd, s.dbda,
        )
    }

    fn face_acd(self, v: Differences, s: Sides) -> Result<Option<TetrahedronProjection>, WouldPanic>
        ensures { result ≡ face_acd binary32 self v s }
    {
        check_face(
            2, self.a, self.c, self.d, v.ap, v.cp, v.dp, v.ac, v.ad, v.ab, s.dacd, s.dcda, s.dadc,
        )
    }

    // A hint, without which LLVM makes it a call, and the embedded calls nest one function deeper (README.md, bench/stack).
    #[inline(always)]
    fn face_bcd(self, v: Differences, s: Sides) -> Result<Option<TetrahedronProjection>, WouldPanic>
        ensures { result ≡ face_bcd binary32 self v s }
    {
        let ba = -v.ab;
        check_face(
            3, self.b, self.c, self.d, v.bp, v.cp, v.dp, v.bc, v.bd, ba, s.dbcd, s.dcdb, s.dbdc,
        )
    }
}

fn on_vertex(i: u32, corner: Vec3) -> TetrahedronProjection
    ensures { result ≡ on_vertex i corner }
{
    Projection {
        point: corner,
        location: TetrahedronPointLocation::OnVertex(i),
    }
}

// The Rust's parameters, but for one that it doesn't read.
fn check_edge(
    i: u32,
    a: Vec3,
    nabc: Vec3,
    nabd: Vec3,
    ap: Vec3,
    ab: Vec3,
    ap_ab: f32,
    bp_ab: f32,
) -> EdgeCheck
    ensures { result ≡ check_edge binary32 i a nabc nabd ap ab ap_ab bp_ab }
{
    let ab_ab = ap_ab - bp_ab;
    let ap_x_ab = ap.cross(ab);
    let dabc = ap_x_ab.dot(nabc);
    let dabd = ap_x_ab.dot(nabd);
    if ab_ab != 0.0 && dabc >= 0.0 && dabd >= 0.0 && ap_ab >= 0.0 && ap_ab <= ab_ab {
        let res = Some(on_edge(i, a, ab, ap_ab / ab_ab));
        EdgeCheck { dabc, dabd, res }
    } else {
        EdgeCheck {
            dabc,
            dabd,
            res: None,
        }
    }
}

// The point a + ab * u of the edge i.
fn on_edge(i: u32, a: Vec3, ab: Vec3, u: f32) -> TetrahedronProjection
    ensures { result ≡ on_edge binary32 i a ab u }
{
    Projection {
        point: a + ab * u,
        location: TetrahedronPointLocation::OnEdge(i, 1.0 - u, u),
    }
}

// The Rust's parameters.
fn check_face(
    i: u32,
    a: Vec3,
    b: Vec3,
    c: Vec3,
    ap: Vec3,
    bp: Vec3,
    cp: Vec3,
    ab: Vec3,
    ac: Vec3,
    ad: Vec3,
    dabc: f32,
    dbca: f32,
    dacb: f32,
) -> Result<Option<TetrahedronProjection>, WouldPanic>
    ensures { result ≡ check_face binary32 i a b c ap bp cp ab ac ad dabc dbca dacb }
{
    if dabc < 0.0 && dbca < 0.0 && dacb < 0.0 {
        let n = ab.cross(ac);
        if n.dot(ad) * n.dot(ap) < 0.0 {
            let Some(normal) = n.try_normalize() else {
                return Ok(None);
            };
            let vc = normal.dot(ap.cross(bp));
            let va = normal.dot(bp.cross(cp));
            let vb = normal.dot(cp.cross(ap));
            return Ok(Some(on_face(i, a, b, c, va, vb, vc)?));
        }
    }
    Ok(None)
}

// The point of the face i by its weights; refused where their sum is zero.
fn on_face(
    i: u32,
    a: Vec3,
    b: Vec3,
    c: Vec3,
    va: f32,
    vb: f32,
    vc: f32,
) -> Result<TetrahedronProjection, WouldPanic>
    ensures { result ≡ on_face binary32 i a b c va vb vc }
{
    let denom = va + vb + vc;
    if denom == 0.0 {
        return Err(WouldPanic);
    }
    let inv_denom = 1.0 / denom;
    let b0 = va * inv_denom;
    let b1 = vb * inv_denom;
    let b2 = vc * inv_denom;
    Ok(Projection {
        point: a * b0 + b * b1 + c * b2,
        location: TetrahedronPointLocation::OnFace(i, b0, b1, b2),
    })
}
