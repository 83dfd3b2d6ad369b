// The ray of a cast (parry3d's `Ray`), and where it meets the boundary of a halfspace (`ray_toi_with_halfspace` of query::details).
ghost use Rattle.std.specs.Prelude.{◌≡◌};
ghost use Rattle.std.specs.Float.{binary32};
ghost use Rattle.cast.specs.Ray.{is_zero, ray_toi_with_halfspace};

use vector::Vec3;

#[repr(C)]
#[derive(Clone, Copy)]
pub struct Ray {
    pub origin: Vec3,
    pub dir: Vec3,
}

// `relative_eq!(x, 0.0)`
#[tactic(auto, unfolding(crate::specs::Ray::is_zero))]
pub(crate) fn is_zero(x: f32) -> bool
    ensures { result ≡ is_zero binary32 x }
{
    let epsilon = number::epsilon();
    projection::relative_eq(x, 0.0, epsilon, epsilon)
}

// The time at which the ray meets the plane through `center`: none where they are parallel, or the plane is behind.
#[tactic(auto, unfolding(crate::specs::Ray::ray_toi_with_halfspace))]
pub(crate) fn ray_toi_with_halfspace(center: Vec3, normal: Vec3, ray: Ray) -> Option<f32>
    ensures { result ≡ ray_toi_with_halfspace binary32 center normal ray }
{
    let dpos = center - ray.origin;
    let denom = normal.dot(ray.dir);
    if is_zero(denom) {
        return None;
    }
    let t = normal.dot(dpos) / denom;
    if t >= 0.0 {
        return Some(t);
    }
    None
}
