// `perturbed_dir` of gjk.rs: a direction moved a little along each axis in turn, to escape directions
// that stall the simplex without proving separation.
ghost use Rattle.std.specs.Prelude.{◌≡◌, ◌<◌};
ghost use Rattle.std.specs.Float.{binary32};
ghost use Rattle.gjk.specs.Perturbed.{axis_of, sign_of, perturbed_dir};

use vector::{Axis, Vec3};

// The axis that is moved, where `n` is `seed - 1`: x, y, z, and again.
#[tactic(auto, unfolding(crate::specs::Perturbed::axis_of))]
fn axis_of(n: usize) -> Axis
    ensures { result ≡ axis_of n }
{
    match n % 3 {
        0 => Axis::X,
        1 => Axis::Y,
        _ => Axis::Z,
    }
}

// Three perturbations forward, three back, where `n` is `seed - 1`.
#[tactic(auto, unfolding(crate::specs::Perturbed::sign_of))]
fn sign_of(n: usize) -> f32
    ensures { result ≡ sign_of n }
{
    if n / 3 % 2 == 0 { 1.0 } else { -1.0 }
}

#[tactic(auto, unfolding(crate::specs::Perturbed::perturbed_dir, crate::specs::Perturbed::offset_f))]
pub(crate) fn perturbed_dir(dir: Vec3, seed: usize) -> Vec3
    requires { 0 < seed }
    ensures { result ≡ perturbed_dir binary32 dir seed }
{
    let n = seed - 1;
    let axis = axis_of(n);
    let offset = sign_of(n) * 1.0e-2;
    let res = dir.with_component(axis, dir.component(axis) + offset);
    res.try_normalize().unwrap_or(dir)
}
