// What a projection answers (parry3d's pair of a `PointProjection` and a location), and `is_inside_eps` of a projection of the origin.
ghost use Rattle.std.specs.Prelude.{◌≡◌};
ghost use Rattle.std.specs.Float.{binary32};
ghost use Rattle.projection.specs.Inside.{within_origin};

use vector::Vec3;

// The point of a shape that is nearest to another, and its location, of the kind L that the shape has.
#[derive(Clone, Copy)]
pub struct Projection<L> {
    pub point: Vec3,
    pub location: L,
}

// Whether `point`, the projection of the origin, lies nearer to the origin than `tol`. The Rust also
// answers true where its inside flag is set: at the polytope's tolerance, the only one that is asked, the
// flag changes nothing (`flag-adds-nothing` of proofs/Inside.antt), so it isn't kept. At another it may.
pub fn is_inside_eps(point: Vec3, tol: f32) -> bool
    ensures { result ≡ within_origin binary32 point tol }
{
    let away = Vec3::ZERO - point;
    away.length_squared() < tol * tol
}
