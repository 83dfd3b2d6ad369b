// Two shapes, as every query gets them.
ghost use Rattle.std.specs.Prelude.{◌≡◌};
ghost use Rattle.std.specs.Float.{binary32};
ghost use Rattle.shape.specs.Support.{from_shapes};

use crate::support::{Shape, from_shapes};
use crate::vertex::Vertex;
use vector::{Pose, Vec3};

// Two shapes: `g1` in its own frame, and `g2` in the pose `pos12`.
#[derive(Clone, Copy)]
pub struct Pair {
    pub pos12: Pose,
    pub g1: Shape,
    pub g2: Shape,
}

impl Pair {
    // cso_point.rs, `CsoPoint::from_shapes`
    pub fn support_point(&self, dir: Vec3) -> Vertex
        ensures { result ≡ from_shapes binary32 self.now.pos12 self.now.g1 self.now.g2 dir }
    {
        from_shapes(self.pos12, self.g1, self.g2, dir)
    }
}
