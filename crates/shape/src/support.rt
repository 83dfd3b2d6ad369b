// The shapes and their support points: the Rust's `SupportMap`, over a closed choice of shapes.
// No number is refused for its value.
ghost use Rattle.std.specs.Prelude.{◌≡◌};
ghost use Rattle.std.specs.Float.{binary32};
ghost use Rattle.shape.specs.Support.{ball_toward, cuboid_local, capsule_toward, triangle_local};
ghost use Rattle.shape.specs.Support.{unit_for, local_support_point, local_support_point_toward, in_pose, support_point, support_point_toward, from_shapes, from_shapes_toward};

use crate::vertex::Vertex;
use vector::{Pose, Vec3};

// A rule of the project keeps this form: a closed enum of shapes, whose cases carry numbers.
#[derive(Clone, Copy)]
pub enum Shape {
    // its radius
    Ball(f32),
    // its three half extents
    Cuboid(f32, f32, f32),
    // its two ends, and its radius
    Capsule(f32, f32, f32, f32, f32, f32, f32),
    // its three corners
    Triangle(f32, f32, f32, f32, f32, f32, f32, f32, f32),
}

impl Shape {
    // The point farthest along `dir`, in the shape's own frame.
    pub fn local_support_point(self, dir: Vec3) -> Vec3
        ensures { result ≡ local_support_point binary32 self dir }
    {
        self.local_support_point_toward(self.unit_for(dir))
    }

    // What the shape makes of `dir` before it looks for the point: a ball normalizes it with no test, a
    // capsule with Y to fall back on, and the others take it as it is.
    fn unit_for(self, dir: Vec3) -> Vec3
        ensures { result ≡ unit_for binary32 self dir }
    {
        match self {
            Shape::Ball(_) => dir.normalize(),
            Shape::Cuboid(_, _, _) => dir,
            Shape::Capsule(_, _, _, _, _, _, _) => dir.normalize_or(Vec3::Y),
            Shape::Triangle(_, _, _, _, _, _, _, _, _) => dir,
        }
    }

    // The point farthest along a unit vector, in the shape's own frame.
    pub fn local_support_point_toward(self, dir: Vec3) -> Vec3
        ensures { result ≡ local_support_point_toward binary32 self dir }
    {
        match self {
            Shape::Ball(radius) => dir * radius,
            Shape::Cuboid(x, y, z) => cuboid_local(Vec3::new(x, y, z), dir),
            Shape::Capsule(ax, ay, az, bx, by, bz, radius) => {
                capsule_toward(Vec3::new(ax, ay, az), Vec3::new(bx, by, bz), radius, dir)
            }
            Shape::Triangle(ax, ay, az, bx, by, bz, cx, cy, cz) => {
                let a = Vec3::new(ax, ay, az);
                let b = Vec3::new(bx, by, bz);
                let c = Vec3::new(cx, cy, cz);
                triangle_local(a, b, c, dir)
            }
        }
    }

    // The point farthest along `dir` of the shape in the pose `m`: a ball by its own rule, the others by
    // the trait's default, each in its arm, so that no shape is copied on the way.
    pub fn support_point(self, m: Pose, dir: Vec3) -> Vec3
        ensures { result ≡ support_point binary32 self m dir }
    {
        match self {
            Shape::Ball(radius) => ball_toward(m, radius, dir.normalize()),
            Shape::Cuboid(x, y, z) => {
                let local_dir = m.inverse_transform_vector(dir);
                m.transform_point(cuboid_local(Vec3::new(x, y, z), local_dir))
            }
            Shape::Capsule(ax, ay, az, bx, by, bz, radius) => {
                let a = Vec3::new(ax, ay, az);
                let b = Vec3::new(bx, by, bz);
                let local_dir = m.inverse_transform_vector(dir).normalize_or(Vec3::Y);
                m.transform_point(capsule_toward(a, b, radius, local_dir))
            }
            Shape::Triangle(ax, ay, az, bx, by, bz, cx, cy, cz) => {
                let a = Vec3::new(ax, ay, az);
                let b = Vec3::new(bx, by, bz);
                let c = Vec3::new(cx, cy, cz);
                let local_dir = m.inverse_transform_vector(dir);
                m.transform_point(triangle_local(a, b, c, local_dir))
            }
        }
    }

    pub fn support_point_toward(self, m: Pose, dir: Vec3) -> Vec3
        ensures { result ≡ support_point_toward binary32 self m dir }
    {
        match self {
            Shape::Ball(radius) => ball_toward(m, radius, dir),
            _ => self.in_pose_toward(m, dir),
        }
    }

    fn in_pose_toward(self, m: Pose, dir: Vec3) -> Vec3
        ensures { result ≡ in_pose binary32 (local_support_point_toward binary32 self) m dir }
    {
        let local_dir = m.inverse_transform_vector(dir);
        m.transform_point(self.local_support_point_toward(local_dir))
    }
}

// A ball in the pose `m` (ball.rs, `support_point_toward`): its rotation is not asked.
fn ball_toward(m: Pose, radius: f32, dir: Vec3) -> Vec3
    ensures { result ≡ ball_toward binary32 m radius dir }
{
    let translation = m.translation;
    translation + dir * radius
}

// cuboid.rs, `local_support_point`: each half extent with the sign of `dir`'s component.
fn cuboid_local(half_extents: Vec3, dir: Vec3) -> Vec3
    ensures { result ≡ cuboid_local half_extents dir }
{
    Vec3 {
        x: number::copy_sign(half_extents.x, dir.x),
        y: number::copy_sign(half_extents.y, dir.y),
        z: number::copy_sign(half_extents.z, dir.z),
    }
}

// capsule.rs, `local_support_point_toward`: on equality the second end.
fn capsule_toward(a: Vec3, b: Vec3, radius: f32, dir: Vec3) -> Vec3
    ensures { result ≡ capsule_toward binary32 a b radius dir }
{
    if dir.dot(a) > dir.dot(b) {
        a + dir * radius
    } else {
        b + dir * radius
    }
}

// triangle.rs, `local_support_point`: on equality the later corner.
fn triangle_local(a: Vec3, b: Vec3, c: Vec3, dir: Vec3) -> Vec3
    ensures { result ≡ triangle_local binary32 a b c dir }
{
    let d1 = a.dot(dir);
    let d2 = b.dot(dir);
    let d3 = c.dot(dir);
    if d1 > d2 {
        if d1 > d3 { a } else { c }
    } else {
        if d2 > d3 { b } else { c }
    }
}

// cso_point.rs, `CsoPoint::from_shapes`: `g1` in its own frame, `g2` in the pose `pos12`.
pub fn from_shapes(pos12: Pose, g1: Shape, g2: Shape, dir: Vec3) -> Vertex
    ensures { result ≡ from_shapes binary32 pos12 g1 g2 dir }
{
    let sp1 = g1.local_support_point(dir);
    let sp2 = g2.support_point(pos12, -dir);
    Vertex::new(sp1, sp2)
}

// cso_point.rs, `CsoPoint::from_shapes_toward`
pub fn from_shapes_toward(pos12: Pose, g1: Shape, g2: Shape, dir: Vec3) -> Vertex
    ensures { result ≡ from_shapes_toward binary32 pos12 g1 g2 dir }
{
    let sp1 = g1.local_support_point_toward(dir);
    let sp2 = g2.support_point_toward(pos12, -dir);
    Vertex::new(sp1, sp2)
}
