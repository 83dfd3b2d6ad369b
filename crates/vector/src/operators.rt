// The operators of glam's `Vec3`.
ghost use Rattle.std.specs.Prelude.{◌≡◌};
ghost use Rattle.std.specs.Float.{binary32};
ghost use Rattle.vector.specs.Vector.{neg_v, add_v, sub_v, scale_v, div_v};

use crate::vec3::Vec3;
use std::ops::{Add, Div, Mul, Neg, Sub};

impl Neg for Vec3 {
    type Output = Vec3;

    ghost neg_gives = { λ a r. r ≡ neg_v a };

    fn neg(self) -> Vec3 {
        Vec3 {
            x: -self.x,
            y: -self.y,
            z: -self.z,
        }
    }
}

impl Add for Vec3 {
    type Output = Vec3;

    ghost add_gives = { λ a b r. r ≡ add_v binary32 a b };

    fn add(self, other: Vec3) -> Vec3 {
        Vec3 {
            x: self.x + other.x,
            y: self.y + other.y,
            z: self.z + other.z,
        }
    }
}

impl Sub for Vec3 {
    type Output = Vec3;

    ghost sub_gives = { λ a b r. r ≡ sub_v binary32 a b };

    fn sub(self, other: Vec3) -> Vec3 {
        Vec3 {
            x: self.x - other.x,
            y: self.y - other.y,
            z: self.z - other.z,
        }
    }
}

impl Mul<f32> for Vec3 {
    type Output = Vec3;

    ghost mul_gives = { λ a n r. r ≡ scale_v binary32 a n };

    fn mul(self, number: f32) -> Vec3 {
        Vec3 {
            x: self.x * number,
            y: self.y * number,
            z: self.z * number,
        }
    }
}

impl Div<f32> for Vec3 {
    type Output = Vec3;

    ghost div_gives = { λ a n r. r ≡ div_v binary32 a n };

    fn div(self, number: f32) -> Vec3 {
        Vec3 {
            x: self.x / number,
            y: self.y / number,
            z: self.z / number,
        }
    }
}
