// Casts on standard input, a line for each on standard output: the number of the answer (0 an impact, 6 a miss, 2 refused), the time
// and the direction, floats as their bits in eight hexadecimal digits, all NaNs alike.
// A cast is 34 numbers of four bytes, lowest byte first: kind and nine numbers of each shape, quaternion, translation, the ray's
// origin and direction, the largest time. No more than 4,294,967,295 are read.
#![tactic(auto)]

ghost use Rattle.std.specs.Prelude.{◌≡◌, length};

use cast::{Cast, Impact, Ray};
use shape::Shape;
use std::io::Read;
use vector::{Pose, Rotation, Vec3};

fn main(rt: HostRuntime) {
    let mut stdin = rt.stdin();
    let mut record = [0u8; 136];
    for _ in 0..u32::MAX {
        if stdin.read_exact(&mut record).is_err() {
            return;
        }
        let (words, _) = record.as_chunks::<4>();
        print_cast(&rt, cast_of(words));
    }
}

fn cast_of(words: &[[u8; 4]]) -> Cast
    requires { length words.now ≡ 34 }
{
    let g1 = shape_of(&words[..10]);
    let g2 = shape_of(&words[10..20]);
    let rotation = Rotation {
        x: number_of(words[20]),
        y: number_of(words[21]),
        z: number_of(words[22]),
        w: number_of(words[23]),
    };
    let translation = vector_of(&words[24..27]);
    let pos12 = Pose {
        rotation,
        translation,
    };
    let origin = vector_of(&words[27..30]);
    let dir = vector_of(&words[30..33]);
    let ray = Ray { origin, dir };
    cast::minkowski_ray_cast(pos12, g1, g2, ray, number_of(words[33]))
}

// A kind, and nine numbers.
fn shape_of(words: &[[u8; 4]]) -> Shape
    requires { length words.now ≡ 10 }
{
    let a = vector_of(&words[1..4]);
    let b = vector_of(&words[4..7]);
    let c = vector_of(&words[7..]);
    match u32::from_le_bytes(words[0]) {
        0 => Shape::Ball(a.x),
        1 => Shape::Cuboid(a.x, a.y, a.z),
        2 => Shape::Capsule(a.x, a.y, a.z, b.x, b.y, b.z, c.x),
        _ => Shape::Triangle(a.x, a.y, a.z, b.x, b.y, b.z, c.x, c.y, c.z),
    }
}

fn vector_of(words: &[[u8; 4]]) -> Vec3
    requires { length words.now ≡ 3 }
{
    Vec3::new(
        number_of(words[0]),
        number_of(words[1]),
        number_of(words[2]),
    )
}

fn number_of(word: [u8; 4]) -> f32 {
    number::from_bits(u32::from_le_bytes(word))
}

fn print_cast(rt: &HostRuntime, cast: Cast) {
    let nothing = Impact {
        time: 0.0,
        dir: Vec3::ZERO,
    };
    match cast {
        Ok(Some(impact)) => print_line(rt, 0, impact),
        Ok(None) => print_line(rt, 6, nothing),
        Err(_) => print_line(rt, 2, nothing),
    }
}

fn print_line(rt: &HostRuntime, number: u32, impact: Impact) {
    let time = number::to_bits(impact.time);
    let x = number::to_bits(impact.dir.x);
    let y = number::to_bits(impact.dir.y);
    let z = number::to_bits(impact.dir.z);
    let _ = println!(rt; "{number} {time:08X} {x:08X} {y:08X} {z:08X}");
}
