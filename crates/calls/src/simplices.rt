// The operations of the simplex that leave it as it is: 0 no, 1 yes, or what is read, and 2 the refusal.
use crate::answers::{Answer, or_refused};
use crate::words::Args;
use simplex::VoronoiSimplex;
use vector::Vec3;

// Functions 50 to 59: of a simplex, a place and a point.
pub fn answer(function: u32, mut args: Args) -> Answer {
    let s: VoronoiSimplex = args.read();
    let i: usize = args.read();
    let pt: Vec3 = args.read();
    match function {
        50 => or_refused(s.proj_coord(i)),
        51 => or_refused(s.prev_proj_coord(i)),
        52 => or_refused(s.max_sq_len()),
        53 => or_refused(s.point(i)),
        54 => or_refused(s.prev_point(i)),
        55 => or_refused(s.dimension()),
        56 => or_refused(s.prev_dimension()),
        57 => s.is_simplex().into(),
        58 => or_refused(s.contains_point(pt)),
        _ => or_refused(reduction::project_origin(s)),
    }
}
