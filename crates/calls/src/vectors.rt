// Numbers and vectors. Each function has the same arguments and takes those it needs: two numbers x and y, two vectors a and b, a pose, and
// the number of an axis, 2 and any above for z.
use crate::answers::Answer;
use crate::words::{Args, FromWords};
use vector::{Axis, Pose, Rotation, Vec3};

impl FromWords for Axis {
    fn read(args: &mut Args<'_>) -> Axis {
        match args.read::<usize>() {
            0 => Axis::X,
            1 => Axis::Y,
            _ => Axis::Z,
        }
    }
}

fn number_of(function: u32, x: f32, y: f32, a: Vec3, b: Vec3, axis: Axis) -> f32 {
    match function {
        0 => number::epsilon(),
        1 => number::eps_tol(),
        2 => number::polytope_tol(),
        3 => number::largest(),
        4 => number::sqrt(x),
        5 => number::abs(x),
        6 => number::max(x, y),
        7 => number::copy_sign(x, y),
        8 => a.dot(b),
        9 => a.length_squared(),
        10 => a.length(),
        11 => a.length_recip(),
        _ => a.component(axis),
    }
}

fn vector_of(function: u32, x: f32, a: Vec3, b: Vec3, pose: Pose, axis: Axis) -> Vec3 {
    match function {
        13 => -a,
        14 => a + b,
        15 => a - b,
        16 => a * x,
        17 => a / x,
        18 => a.cross(b),
        19 => a.normalize(),
        20 => a.normalize_or(b),
        21 => a.normalize_or_zero(),
        22 => a.with_component(axis, x),
        23 => pose.rotation.rotate(a),
        24 => pose.transform_point(a),
        _ => pose.inverse_transform_vector(a),
    }
}

// 1 and the vector, or 0.
fn tried(v: Option<Vec3>) -> Answer {
    match v {
        Some(first) => Answer {
            number: 1,
            first,
            ..Answer::ZEROS
        },
        None => Answer::ZEROS,
    }
}

fn inverted(rotation: Rotation) -> Answer {
    let Rotation { x, y, z, w } = rotation.inverse();
    Answer {
        float: w,
        first: Vec3 { x, y, z },
        ..Answer::ZEROS
    }
}

fn measured(a: Vec3) -> Answer {
    let both = a.normalize_and_length();
    Answer {
        float: both.length,
        first: both.normalized,
        ..Answer::ZEROS
    }
}

// Functions 0 to 30.
pub fn answer(function: u32, mut args: Args) -> Answer {
    let x: f32 = args.read();
    let y: f32 = args.read();
    let a: Vec3 = args.read();
    let b: Vec3 = args.read();
    let pose: Pose = args.read();
    let axis: Axis = args.read();
    match function {
        0..=12 => number_of(function, x, y, a, b, axis).into(),
        13..=25 => vector_of(function, x, a, b, pose, axis).into(),
        26 => number::is_finite(x).into(),
        27 => (a == b).into(),
        28 => tried(a.try_normalize()),
        29 => measured(a),
        _ => inverted(pose.rotation),
    }
}
