// The known roots, run and proved: what a caller of `number::sqrt` has to say.
#![tactic(auto)]

ghost use Rattle.std.specs.Prelude.{◌≡◌, not, T};
ghost use Rattle.std.specs.Float.{binary32};
ghost use Rattle.std.specs.Float.Ieee.{ne, is_nan, nan_bits, of_bits, to_bits};
ghost use Rattle.number.specs.Root.{root};

// The bits of the root of the number whose bits are a, where neither is a NaN.
fn root_of(a: u32) -> u32
    requires { T (not (nan_bits binary32 a)) × T (not (is_nan (root binary32 (of_bits binary32 a)))) }
    ensures { result ≡ to_bits binary32 (root binary32 (of_bits binary32 a)) }
{
    f32::to_bits(number::sqrt(f32::from_bits(a)))
}

// Whether the root of the number whose bits are a is a NaN.
fn has_no_root(a: u32) -> bool
    requires { T (not (nan_bits binary32 a)) }
    ensures { result ≡ ne (root binary32 (of_bits binary32 a)) (root binary32 (of_bits binary32 a)) }
{
    let r = number::sqrt(f32::from_bits(a));
    r != r
}

fn main() {
    check::expect(root_of(0x0000_0002) == 0x1A80_0000);
    check::expect(root_of(0x4000_0000) == 0x3FB5_04F3);
    check::expect(root_of(0x7F7F_FFFF) == 0x5F7F_FFFF);
    check::expect(root_of(0x8000_0000) == 0x8000_0000);
    check::expect(has_no_root(0xBF80_0000));
}
