// Vectors of three numbers (glam's `Vec3`). `==` says whether each component compares equal (`equal_v` of specs/Vector.antt).
ghost use Rattle.std.specs.Prelude.{◌≡◌};
ghost use Rattle.std.specs.Float.{binary32};
ghost use Rattle.vector.specs.Vector.{dot_v, cross_v};
ghost use Rattle.vector.specs.Vector.{length_squared_v, length_v, length_recip_v, usable};
ghost use Rattle.vector.specs.Vector.{normalize_v, try_normalize_v, normalize_or_v, normalize_or_zero_v, normalize_and_length_v};
ghost use Rattle.vector.specs.Vector.{vec3, component_v, with_component_v};

#[repr(C)]
#[derive(Clone, Copy, PartialEq)]
pub struct Vec3 {
    pub x: f32,
    pub y: f32,
    pub z: f32,
}

// Which of the three components is meant: the Rust's index, which is 0, 1 or 2.
#[derive(Clone, Copy)]
pub enum Axis {
    X,
    Y,
    Z,
}

// What `normalize_and_length` returns: the Rust's pair.
#[repr(C)]
#[derive(Clone, Copy)]
pub struct UnitAndLength {
    pub normalized: Vec3,
    pub length: f32,
}

impl Vec3 {
    pub const ZERO: Vec3 = Vec3 {
        x: 0.0,
        y: 0.0,
        z: 0.0,
    };

    pub const X: Vec3 = Vec3 {
        x: 1.0,
        y: 0.0,
        z: 0.0,
    };

    pub const Y: Vec3 = Vec3 {
        x: 0.0,
        y: 1.0,
        z: 0.0,
    };

    pub const Z: Vec3 = Vec3 {
        x: 0.0,
        y: 0.0,
        z: 1.0,
    };

    pub fn new(x: f32, y: f32, z: f32) -> Vec3
        ensures { result ≡ vec3 x y z }
    {
        Vec3 { x, y, z }
    }

    pub fn dot(self, other: Vec3) -> f32
        ensures { result ≡ dot_v binary32 self other }
    {
        self.x * other.x + self.y * other.y + self.z * other.z
    }

    pub fn cross(self, other: Vec3) -> Vec3
        ensures { result ≡ cross_v binary32 self other }
    {
        Vec3 {
            x: self.y * other.z - other.y * self.z,
            y: self.z * other.x - other.z * self.x,
            z: self.x * other.y - other.x * self.y,
        }
    }

    pub fn length_squared(self) -> f32
        ensures { result ≡ length_squared_v binary32 self }
    {
        self.dot(self)
    }

    pub fn length(self) -> f32
        ensures { result ≡ length_v binary32 self }
    {
        number::length_of(self.length_squared())
    }

    pub fn length_recip(self) -> f32
        ensures { result ≡ length_recip_v binary32 self }
    {
        1.0 / self.length()
    }

    // The vector times `1 / length`, with no test: a zero vector gives NaNs.
    pub fn normalize(self) -> Vec3
        ensures { result ≡ normalize_v binary32 self }
    {
        self * self.length_recip()
    }

    // The same where `1 / length` is finite and above zero, and nothing elsewhere.
    pub fn try_normalize(self) -> Option<Vec3>
        ensures { result ≡ try_normalize_v binary32 self }
    {
        let recip = self.length_recip();
        if is_usable(recip) {
            Some(self * recip)
        } else {
            None
        }
    }

    // The same, or `fallback`.
    pub fn normalize_or(self, fallback: Vec3) -> Vec3
        ensures { result ≡ normalize_or_v binary32 self fallback }
    {
        let recip = self.length_recip();
        if is_usable(recip) {
            self * recip
        } else {
            fallback
        }
    }

    pub fn normalize_or_zero(self) -> Vec3
        ensures { result ≡ normalize_or_zero_v binary32 self }
    {
        self.normalize_or(Vec3::ZERO)
    }

    // The vector times `1 / length`, with its length; or X and 0.
    pub fn normalize_and_length(self) -> UnitAndLength
        ensures { result ≡ normalize_and_length_v binary32 self }
    {
        let length = self.length();
        let recip = 1.0 / length;
        if is_usable(recip) {
            UnitAndLength {
                normalized: self * recip,
                length,
            }
        } else {
            UnitAndLength {
                normalized: Vec3::X,
                length: 0.0,
            }
        }
    }

    // `self[axis]`
    pub fn component(self, axis: Axis) -> f32
        ensures { result ≡ component_v self axis }
    {
        match axis {
            Axis::X => self.x,
            Axis::Y => self.y,
            Axis::Z => self.z,
        }
    }

    // The vector after `self[axis] = number`.
    pub fn with_component(self, axis: Axis, number: f32) -> Vec3
        ensures { result ≡ with_component_v self axis number }
    {
        match axis {
            Axis::X => Vec3 {
                x: number,
                y: self.y,
                z: self.z,
            },
            Axis::Y => Vec3 {
                x: self.x,
                y: number,
                z: self.z,
            },
            Axis::Z => Vec3 {
                x: self.x,
                y: self.y,
                z: number,
            },
        }
    }
}

// Whether a reciprocal of a length may scale a vector to length 1.
fn is_usable(recip: f32) -> bool
    ensures { result ≡ usable recip }
{
    number::is_finite(recip) & (recip > 0.0)
}
