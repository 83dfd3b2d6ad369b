// The length of a vector, by its square.
ghost use Rattle.std.specs.Prelude.{◌≡◌};
ghost use Rattle.std.specs.Float.{binary32};
ghost use Rattle.number.specs.Root.{root};

// The root of a squared length. Where a support point is asked for, the direction was normalized before, so
// that the square is 1 but for the rounding of a few digits; next to 1 the root lies half as far from 1, and
// is read off the pattern.
pub fn length_of(square: f32) -> f32
    ensures { result ≡ root binary32 square }
{
    // only a NaN differs from itself
    if square == square {
        let b = f32::to_bits(square);
        // less than 1/4096 from 1, whose pattern is 0x3f80_0000: the root's is in the middle of the two
        if 0x3f7f_f000 < b && b < 0x3f80_0800 {
            return f32::from_bits((b + 0x3f80_0000) >> 1);
        }
    }
    crate::sqrt(square)
}
