// The projection on a segment (parry3d's `point_segment.rs`).
#![tactic(auto, unfolding(crate::specs::Segment::project_segment, crate::specs::Segment::on_edge))]

ghost use Rattle.std.specs.Prelude.{◌≡◌};
ghost use Rattle.std.specs.Float.{binary32};
ghost use Rattle.number.specs.Told.{Told};
ghost use Rattle.projection.specs.Segment.{on_vertex, on_edge, project_segment, segment_number, segment_values};

use crate::point_query::Projection;
use refusal::WouldPanic;
use vector::Vec3;

#[repr(C)]
#[derive(Clone, Copy)]
pub struct Segment {
    pub a: Vec3,
    pub b: Vec3,
}

// At a corner, or on the edge with the weights of a and b.
#[derive(Clone, Copy)]
pub enum SegmentPointLocation {
    OnVertex(u32),
    OnEdge(f32, f32),
}

pub type SegmentProjection = Projection<SegmentPointLocation>;

impl Segment {
    // Refused where the Rust asserts.
    pub fn project_local_point_and_get_location(
        self,
        pt: Vec3,
    ) -> Result<SegmentProjection, WouldPanic>
        ensures answer { result ≡ project_segment binary32 self pt }
        ensures told { Told segment_number segment_values result (project_segment binary32 self pt) }
    {
        let ab = self.b - self.a;
        let ap = pt - self.a;
        let t = ab.dot(ap);
        let n = ab.length_squared();
        if t <= 0.0 {
            return Ok(on_vertex(0, self.a));
        }
        if t >= n {
            return Ok(on_vertex(1, self.b));
        }
        if n == 0.0 {
            return Err(WouldPanic);
        }
        Ok(on_edge(self.a, ab, t / n))
    }
}

// Each shape has its own `on_vertex` and `on_edge`, which name the case of its own type: a trait of two constructors would be longer.
fn on_vertex(i: u32, corner: Vec3) -> SegmentProjection
    ensures { result ≡ on_vertex i corner }
{
    Projection {
        point: corner,
        location: SegmentPointLocation::OnVertex(i),
    }
}

// The point a + ab * u of the edge.
fn on_edge(a: Vec3, ab: Vec3, u: f32) -> SegmentProjection
    ensures { result ≡ on_edge binary32 a ab u }
{
    Projection {
        point: a + ab * u,
        location: SegmentPointLocation::OnEdge(1.0 - u, u),
    }
}
