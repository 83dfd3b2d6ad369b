// What the Rust's loop carries from round to round, besides the simplex.
ghost use Rattle.std.specs.Prelude.{◌<◌};

use vector::Vec3;

// `support_square` is the square of the Rust's `support_scale`: only `is_touching` reads the scale, and takes the root. `niter` stays
// below 100, as the round that brings it there ends the run.
#[derive(Clone, Copy)]
pub struct Carried {
    pub proj: Vec3,
    pub old_dir: Vec3,
    pub max_bound: f32,
    pub best_min_bound: f32,
    pub support_square: f32,
    pub nb_perturbs: usize,
    pub niter: usize,
    ghost in_time: { niter < 100 },
}
