// Projections and what is asked of triangles and numbers. Each function has the same arguments and takes those it needs: a location's kind
// and number, the points a, b, c and d, and the point to project.
use crate::answers::{Answer, or_refused};
use crate::words::Args;
use projection::{Segment, Triangle, TrianglePointLocation};
use refusal::WouldPanic;
use tetrahedron::Tetrahedron;
use vector::Vec3;

// Weights, or 1 for none, or the refusal.
fn weights_of(location: TrianglePointLocation) -> Answer {
    match location.barycentric_coordinates() {
        Ok(Some(w)) => Vec3::new(w.u, w.v, w.w).into(),
        Ok(None) => Answer::numbered(1),
        Err(WouldPanic) => Answer::numbered(2),
    }
}

// Functions 43 to 49. The numbers of `is_inside_eps` and `relative_eq` stand in b and a, a location's weights in a.
pub fn answer(function: u32, args: Args) -> Answer {
    let mut located = args;
    let location: TrianglePointLocation = located.read();
    let mut points = args.after(2);
    let a: Vec3 = points.read();
    let b: Vec3 = points.read();
    let c: Vec3 = points.read();
    let d: Vec3 = points.read();
    let pt: Vec3 = points.read();
    match function {
        43 => or_refused(Segment { a, b }.project_local_point_and_get_location(pt)),
        44 => Triangle { a, b, c }
            .project_local_point_and_get_location(pt)
            .into(),
        45 => or_refused(Tetrahedron { a, b, c, d }.project_local_point_and_get_location(pt)),
        46 => Triangle { a, b, c }.is_affinely_dependent().into(),
        47 => projection::is_inside_eps(a, b.x).into(),
        48 => projection::relative_eq(a.x, a.y, a.z, b.x).into(),
        _ => weights_of(location),
    }
}
