// The cast under a C name: when a shape that is swept along a line meets another.
ghost use Rattle.std.specs.Prelude.{◌≡◌};
ghost use Rattle.std.specs.Float.{binary32};
ghost use Rattle.answers.specs.Answers.{shape_of};
ghost use Rattle.embedding.specs.Impact.{cast_record, malformed_cast, cast_between};

use answers::{ShapeRecord, shape_of};
use cast::{Cast, Ray};
use refusal::WouldPanic;
use vector::{Pose, Vec3};

// The number of the answer, and the time and the direction; what is no answer has zeros. A number, since C is told it so.
#[repr(C)]
#[derive(Clone, Copy)]
pub struct CastRecord {
    pub number: u32,
    pub time: f32,
    pub dir: Vec3,
}

fn cast_record(cast: Cast) -> CastRecord
    ensures { result ≡ cast_record cast }
{
    match cast {
        Ok(Some(impact)) => CastRecord {
            number: 0,
            time: impact.time,
            dir: impact.dir,
        },
        Ok(None) => CastRecord {
            number: 6,
            time: 0.0,
            dir: Vec3::ZERO,
        },
        Err(WouldPanic) => CastRecord {
            number: 2,
            time: 0.0,
            dir: Vec3::ZERO,
        },
    }
}

fn malformed_cast() -> CastRecord
    ensures { result ≡ malformed_cast }
{
    CastRecord {
        number: 4,
        time: 0.0,
        dir: Vec3::ZERO,
    }
}

// The cast's answer for C.
#[unsafe(no_mangle)]
pub extern "C" fn separation_cast(
    pos12: Pose,
    g1: ShapeRecord,
    g2: ShapeRecord,
    ray: Ray,
    max_time_of_impact: f32,
) -> CastRecord
    ensures { result ≡ cast_between binary32 pos12 (shape_of g1) (shape_of g2) ray max_time_of_impact }
{
    let Some(first) = shape_of(g1) else {
        return malformed_cast();
    };
    let Some(second) = shape_of(g2) else {
        return malformed_cast();
    };
    cast_record(cast::minkowski_ray_cast(pos12, first, second, ray, max_time_of_impact))
}
