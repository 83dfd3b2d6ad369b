// The proposer: a direction in floats, as GJK answers it, as one on the cell's grid. It owes nothing to anybody: the checker of `certificate`
// tries what it proposes, and declines a bad proposal.
#![tactic(auto)]

ghost use Rattle.std.specs.Prelude.{◌≡◌};
ghost use Rattle.std.specs.Float.{binary32};
ghost use Rattle.proposal.specs.Proposal.{whole_part, grid_number, reach, proposed};

use certificate::GridVector;
use vector::Vec3;

// The number without its fraction; 0 where no `i64` has it, and for a NaN.
fn whole_part(x: f32) -> i64
    ensures { result ≡ whole_part x }
{
    if x >= -9223372036854775808.0 {
        if x < 9223372036854775808.0 {
            return std::num::truncating_f32_to_i64(x);
        }
    }
    0
}

// A share of the grid's reach as a number of the grid; 0 where it is none, as for a NaN.
fn grid_number(share: f32) -> i32
    ensures { result ≡ grid_number binary32 share }
{
    let n = whole_part(share * 1_048_576.0);
    if (-1_048_576 <= n) & (n <= 1_048_576) {
        n as i32
    } else {
        0
    }
}

// The largest of the three, without its sign.
fn reach(dir: Vec3) -> f32
    ensures { result ≡ reach dir }
{
    number::max(
        number::max(number::abs(dir.x), number::abs(dir.y)),
        number::abs(dir.z),
    )
}

// The direction whose largest number is an end of the grid. A zero or an infinite direction gives the zero direction, which is declined.
pub fn propose(dir: Vec3) -> GridVector
    ensures { result ≡ proposed binary32 dir }
{
    let scale = reach(dir);
    GridVector {
        x: grid_number(dir.x / scale),
        y: grid_number(dir.y / scale),
        z: grid_number(dir.z / scale),
    }
}
