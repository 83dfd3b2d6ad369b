// A vertex: a point of the difference of two shapes, and the two points it came from
// (`CsoPoint` of cso_point.rs).
ghost use Rattle.std.specs.Prelude.{◌≡◌};
ghost use Rattle.std.specs.Float.{binary32};
ghost use Rattle.shape.specs.Vertex.{new_vertex, vertex_with_point, single_point, origin_vertex, translate_vertex, sub_vertex};

use std::ops::Sub;
use vector::Vec3;

#[repr(C)]
#[derive(Clone, Copy)]
pub struct Vertex {
    // `orig1 - orig2`, unless the vertex was translated
    pub point: Vec3,
    pub orig1: Vec3,
    pub orig2: Vec3,
}

impl Vertex {
    pub const ZERO: Vertex = Vertex {
        point: Vec3::ZERO,
        orig1: Vec3::ZERO,
        orig2: Vec3::ZERO,
    };

    pub fn new(orig1: Vec3, orig2: Vec3) -> Vertex
        ensures { result ≡ new_vertex binary32 orig1 orig2 }
    {
        let point = orig1 - orig2;
        Vertex::new_with_point(point, orig1, orig2)
    }

    pub fn new_with_point(point: Vec3, orig1: Vec3, orig2: Vec3) -> Vertex
        ensures { result ≡ vertex_with_point point orig1 orig2 }
    {
        Vertex {
            point,
            orig1,
            orig2,
        }
    }

    pub fn single_point(point: Vec3) -> Vertex
        ensures { result ≡ single_point point }
    {
        Vertex::new_with_point(point, point, Vec3::ZERO)
    }

    pub fn origin() -> Vertex
        ensures { result ≡ origin_vertex binary32 }
    {
        Vertex::new(Vec3::ZERO, Vec3::ZERO)
    }

    pub fn translate(self, dir: Vec3) -> Vertex
        ensures { result ≡ translate_vertex binary32 self dir }
    {
        let point = self.point;
        Vertex::new_with_point(point + dir, self.orig1, self.orig2)
    }
}

// The difference of their points.
impl Sub for Vertex {
    type Output = Vec3;

    ghost sub_gives = { λ v w r. r ≡ sub_vertex binary32 v w };

    fn sub(self, other: Vertex) -> Vec3 {
        self.point - other.point
    }
}
