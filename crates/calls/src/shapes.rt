// Support points and vertices. Each function of the first has two shapes, the pose of the second and a direction; each of the others two
// vertices, of which it may take parts, and a vector.
use crate::answers::Answer;
use crate::words::Args;
use shape::{Shape, Vertex};
use vector::{Pose, Vec3};

// Functions 31 to 36.
pub fn supported(function: u32, mut args: Args) -> Answer {
    let g1: Shape = args.read();
    let g2: Shape = args.read();
    let pose: Pose = args.read();
    let dir: Vec3 = args.read();
    match function {
        31 => g1.local_support_point(dir).into(),
        32 => g1.local_support_point_toward(dir).into(),
        33 => g1.support_point(pose, dir).into(),
        34 => g1.support_point_toward(pose, dir).into(),
        35 => shape::from_shapes(pose, g1, g2, dir).into(),
        _ => shape::from_shapes_toward(pose, g1, g2, dir).into(),
    }
}

// Functions 37 to 42.
pub fn vertex(function: u32, mut args: Args) -> Answer {
    let v: Vertex = args.read();
    let w: Vertex = args.read();
    let dir: Vec3 = args.read();
    match function {
        37 => Vertex::new(v.orig1, v.orig2).into(),
        38 => Vertex::new_with_point(v.point, v.orig1, v.orig2).into(),
        39 => Vertex::single_point(v.point).into(),
        40 => Vertex::origin().into(),
        41 => v.translate(dir).into(),
        _ => (v - w).into(),
    }
}
