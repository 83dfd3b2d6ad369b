// `Face::new` of epa3.rs with `ccw_face_normal` of utils and the projection of the origin on the triangle
// (`point_triangle.rs`) in one, since normal and projection come from the same cross product. Of the
// projection a face keeps its weights and whether it holds it, so no location is built.
ghost use Rattle.std.specs.Prelude.{◌≡◌, ℕ};
ghost use Rattle.std.specs.Float.{binary32};
ghost use Rattle.vector.specs.declared.vec3.Vec3.{Vec3};
ghost use Rattle.vector.specs.Vector.{zero_v, sub_v, cross_v};
ghost use Rattle.projection.specs.Triangle.{project_triangle, on_face};
ghost use Rattle.epa_polytope.specs.Face.{face_new};
ghost use Rattle.epa_faces.specs.Weighed.{weighed, on_border};

use epa_polytope::Made;
use projection::is_inside_eps;
use vector::Vec3;

// The weights of the corners at the projection of the origin, and whether the face holds it.
#[derive(Clone, Copy)]
struct Weighed {
    weights: Vec3,
    holds: bool,
}

// `Face::new`
pub fn face_new(a: Vec3, b: Vec3, c: Vec3) -> Made
    ensures { result ≡ face_new binary32 a b c }
{
    let ab = b - a;
    let ac = c - a;
    let n = ab.cross(ac);
    let weighed = weigh(a, b, c, ab, ac, n);
    let weights = weighed.weights;
    Made {
        normal: n.normalize_or_zero(),
        weights,
        holds: weighed.holds,
    }
}

// What a face takes of the projection, by the region that the origin lies in. The regions are asked in the
// order of `point_triangle.rs`: the corners, the edges ab, ac and bc, the middle. What a later one needs is
// computed only where the earlier ones refuse.
fn weigh(a: Vec3, b: Vec3, c: Vec3, ab: Vec3, ac: Vec3, n: Vec3) -> Weighed
    requires { (ab ≡ sub_v binary32 b a) × (ac ≡ sub_v binary32 c a) × (n ≡ cross_v binary32 ab ac) }
    ensures { result ≡ weighed binary32 (project_triangle binary32 (record { a = a; b = b; c = c }) zero_v) }
{
    let ap = Vec3::ZERO - a;
    let ab_ap = ab.dot(ap);
    let ac_ap = ac.dot(ap);
    if (ab_ap <= 0.0) & (ac_ap <= 0.0) {
        return on_border(1.0, 0.0, 0.0, a);
    }
    let bp = Vec3::ZERO - b;
    let ab_bp = ab.dot(bp);
    let ac_bp = ac.dot(bp);
    if (ab_bp >= 0.0) & (ac_bp <= ab_bp) {
        return on_border(0.0, 1.0, 0.0, b);
    }
    let cp = Vec3::ZERO - c;
    let ab_cp = ab.dot(cp);
    let ac_cp = ac.dot(cp);
    if (ac_cp >= 0.0) & (ab_cp <= ac_cp) {
        return on_border(0.0, 0.0, 1.0, c);
    }
    let vc = n.dot(ab.cross(ap));
    if (vc < 0.0) & (ab_ap >= 0.0) & (ab_bp <= 0.0) {
        let v = ab_ap / ab.length_squared();
        return on_border(1.0 - v, v, 0.0, a + ab * v);
    }
    let vb = -n.dot(ac.cross(cp));
    if (vb < 0.0) & (ac_ap >= 0.0) & (ac_cp <= 0.0) {
        let v = ac_ap / ac.length_squared();
        return on_border(1.0 - v, 0.0, v, a + ac * v);
    }
    let bc = c - b;
    let va = n.dot(bc.cross(bp));
    if (va < 0.0) & (ac_bp - ab_bp >= 0.0) & (ab_cp - ac_cp >= 0.0) {
        let v = bc.dot(bp) / bc.length_squared();
        return on_border(0.0, 1.0 - v, v, b + bc * v);
    }
    on_face(va, vb, vc)
}

// At a corner or on an edge, which the face holds if it lies at the origin.
#[tactic(auto, unfolding(crate::specs::Weighed::on_border))]
fn on_border(u: f32, v: f32, w: f32, point: Vec3) -> Weighed
    ensures { result ≡ on_border binary32 u v w point }
{
    Weighed {
        weights: Vec3 { x: u, y: v, z: w },
        holds: is_inside_eps(point, number::polytope_tol()),
    }
}

// In the middle, by the weights before the division; or solid, where their sum is zero. Neither asks for
// the point nor for the side of the face.
fn on_face(va: f32, vb: f32, vc: f32) -> Weighed
    ensures { (pt a ab ac : Vec3) (side : ℕ) → result ≡ weighed binary32 (on_face binary32 pt a ab ac side va vb vc) }
{
    let sum = va + vb + vc;
    if sum != 0.0 {
        let denom = 1.0 / sum;
        let v = vb * denom;
        let w = vc * denom;
        return Weighed {
            weights: Vec3 {
                x: 1.0 - v - w,
                y: v,
                z: w,
            },
            holds: true,
        };
    }
    Weighed {
        weights: Vec3::ZERO,
        holds: false,
    }
}
