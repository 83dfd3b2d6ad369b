// `relative_eq` of the Rust's crate `approx`, for `f32`.
#![tactic(auto, using(crate::proofs::Infinite::infinite), unfolding(crate::specs::Relative::relative_eq, crate::specs::Relative::larger_size))]

ghost use Rattle.std.specs.Prelude.{◌≡◌};
ghost use Rattle.std.specs.Float.{binary32};
ghost use Rattle.projection.specs.Relative.{larger_size, relative_eq};

// Whether x and y are equal, or differ by at most `epsilon`, or by at most `max_relative` of the one
// that is larger in size.
pub fn relative_eq(x: f32, y: f32, epsilon: f32, max_relative: f32) -> bool
    ensures { result ≡ relative_eq binary32 x y epsilon max_relative }
{
    if x == y {
        return true;
    }
    if x.is_infinite() || y.is_infinite() {
        return false;
    }
    let abs_diff = number::abs(x - y);
    if abs_diff <= epsilon {
        return true;
    }
    abs_diff <= larger_size(number::abs(x), number::abs(y)) * max_relative
}

// The larger of two sizes, and the first where either is a NaN: so not `f32::max`, which gives the other.
fn larger_size(abs_x: f32, abs_y: f32) -> f32
    ensures { result ≡ larger_size abs_x abs_y }
{
    if abs_y > abs_x { abs_y } else { abs_x }
}
