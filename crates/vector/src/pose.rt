// Rotations and poses (glamx's `Rot3` and `Pose3`).
ghost use Rattle.std.specs.Prelude.{◌≡◌};
ghost use Rattle.std.specs.Float.{binary32};
ghost use Rattle.vector.specs.Pose.{inverse_r, axis_r, rotate_v, transform_point, inverse_transform_vector};

use crate::vec3::Vec3;

// A quaternion.
#[repr(C)]
#[derive(Clone, Copy)]
pub struct Rotation {
    pub x: f32,
    pub y: f32,
    pub z: f32,
    pub w: f32,
}

#[repr(C)]
#[derive(Clone, Copy)]
pub struct Pose {
    pub rotation: Rotation,
    pub translation: Vec3,
}

impl Rotation {
    pub fn inverse(self) -> Rotation
        ensures { result ≡ inverse_r self }
    {
        Rotation {
            x: -self.x,
            y: -self.y,
            z: -self.z,
            w: self.w,
        }
    }

    // The quaternion's vector part.
    fn axis(self) -> Vec3
        ensures { result ≡ axis_r self }
    {
        Vec3 {
            x: self.x,
            y: self.y,
            z: self.z,
        }
    }

    // `self * v`
    pub fn rotate(self, v: Vec3) -> Vec3
        ensures { result ≡ rotate_v binary32 self v }
    {
        let w = self.w;
        let b = self.axis();
        let along = v * (w * w - b.dot(b));
        let onto = b * (v.dot(b) * 2.0);
        let across = b.cross(v) * (w * 2.0);
        along + onto + across
    }
}

impl Pose {
    // `self * point`
    pub fn transform_point(self, point: Vec3) -> Vec3
        ensures { result ≡ transform_point binary32 self point }
    {
        let rotation = self.rotation;
        rotation.rotate(point) + self.translation
    }

    // A direction, turned back: the translation does not move it.
    pub fn inverse_transform_vector(self, direction: Vec3) -> Vec3
        ensures { result ≡ inverse_transform_vector binary32 self direction }
    {
        let rotation = self.rotation;
        rotation.inverse().rotate(direction)
    }
}
