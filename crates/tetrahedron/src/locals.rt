// The Rust's locals of `project_local_point_and_get_location` (point_tetrahedron.rs) as types of their own, since a function here hands them on to the next.
#![tactic(auto, unfolding(crate::specs::Tetrahedron::dots, crate::specs::Tetrahedron::normals, crate::specs::Tetrahedron::first_edge, crate::specs::Tetrahedron::sides))]

ghost use Rattle.std.specs.Prelude.{◌≡◌};
ghost use Rattle.std.specs.Float.{binary32};
ghost use Rattle.tetrahedron.specs.Tetrahedron.{dots, normals, first_edge, sides};

use crate::TetrahedronProjection;
use vector::Vec3;

// The Rust's locals: the edges, and the way to `pt` from each corner.
#[derive(Clone, Copy)]
pub struct Differences {
    pub ab: Vec3,
    pub ac: Vec3,
    pub ad: Vec3,
    pub ap: Vec3,
    pub bc: Vec3,
    pub bd: Vec3,
    pub bp: Vec3,
    pub cd: Vec3,
    pub cp: Vec3,
    pub dp: Vec3,
}

// The Rust's locals of the same names.
#[derive(Clone, Copy)]
pub struct Dots {
    pub ap_ab: f32,
    pub ap_ac: f32,
    pub ap_ad: f32,
    pub bp_bc: f32,
    pub bp_bd: f32,
    pub bp_ab: f32,
    pub cp_ac: f32,
    pub cp_bc: f32,
    pub cp_cd: f32,
    pub dp_cd: f32,
    pub dp_bd: f32,
    pub dp_ad: f32,
}

// The normals that the Rust names `nabc`, `nabd`, `nacd` and `nbcd`.
#[derive(Clone, Copy)]
pub struct Normals {
    pub abc: Vec3,
    pub abd: Vec3,
    pub acd: Vec3,
    pub bcd: Vec3,
}

// What `check_edge` returns: the Rust's triple.
#[derive(Clone, Copy)]
pub struct EdgeCheck {
    pub dabc: f32,
    pub dabd: f32,
    pub res: Option<TetrahedronProjection>,
}

// What the six calls of `check_edge` return.
#[derive(Clone, Copy)]
pub struct Edges {
    pub ab: EdgeCheck,
    pub ac: EdgeCheck,
    pub ad: EdgeCheck,
    pub bc: EdgeCheck,
    pub bd: EdgeCheck,
    pub cd: EdgeCheck,
}

// The numbers of the six edges under the names that the Rust gives them.
#[derive(Clone, Copy)]
pub struct Sides {
    pub dabc: f32,
    pub dabd: f32,
    pub dacd: f32,
    pub dacb: f32,
    pub dadb: f32,
    pub dadc: f32,
    pub dbca: f32,
    pub dbcd: f32,
    pub dbdc: f32,
    pub dbda: f32,
    pub dcda: f32,
    pub dcdb: f32,
}

impl Differences {
    pub fn dots(self) -> Dots
        ensures { result ≡ dots binary32 self }
    {
        Dots {
            ap_ab: self.ap.dot(self.ab),
            ap_ac: self.ap.dot(self.ac),
            ap_ad: self.ap.dot(self.ad),
            bp_bc: self.bp.dot(self.bc),
            bp_bd: self.bp.dot(self.bd),
            bp_ab: self.bp.dot(self.ab),
            cp_ac: self.cp.dot(self.ac),
            cp_bc: self.cp.dot(self.bc),
            cp_cd: self.cp.dot(self.cd),
            dp_cd: self.dp.dot(self.cd),
            dp_bd: self.dp.dot(self.bd),
            dp_ad: self.dp.dot(self.ad),
        }
    }

    pub fn normals(self) -> Normals
        ensures { result ≡ normals binary32 self }
    {
        Normals {
            abc: self.ab.cross(self.ac),
            abd: self.ab.cross(self.ad),
            acd: self.ac.cross(self.ad),
            bcd: self.bc.cross(self.bd),
        }
    }
}

impl Edges {
    // The first edge whose region holds the point.
    pub fn first(self) -> Option<TetrahedronProjection>
        ensures { result ≡ first_edge self }
    {
        let first = self.ab.res.or(self.ac.res).or(self.ad.res);
        first.or(self.bc.res).or(self.bd.res).or(self.cd.res)
    }

    // The numbers under the names that the Rust gives them.
    pub fn sides(self) -> Sides
        ensures { result ≡ sides self }
    {
        Sides {
            dabc: self.ab.dabc,
            dabd: self.ab.dabd,
            dacd: self.ac.dabc,
            dacb: self.ac.dabd,
            dadb: self.ad.dabc,
            dadc: self.ad.dabd,
            dbca: self.bc.dabc,
            dbcd: self.bc.dabd,
            dbdc: self.bd.dabc,
            dbda: self.bd.dabd,
            dcda: self.cd.dabc,
            dcdb: self.cd.dabd,
        }
    }
}
