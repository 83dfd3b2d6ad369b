// What alters the simplex: its operations, by value and lent, and GJK. The answer comes after the simplex as the call left it.
use crate::answers::{Answer, or_refused};
use crate::words::{Args, FromWords, Output, ToWords};
use calls_lent::{add_point_lent, apply_lent, reduce_lent, reset_lent};
use gjk::{GJKResult, Gjk};
use projection::TrianglePointLocation;
use reduction::{Applied, ApplyError, Location};
use refusal::WouldPanic;
use simplex::{Added, Altered, VoronoiSimplex};

// The simplex after a call, and the answer.
#[derive(Clone, Copy)]
pub struct Changed {
    simplex: VoronoiSimplex,
    answer: Answer,
}

impl ToWords for Changed {
    fn put(&self, out: &mut Output) {
        self.simplex.put(out);
        self.answer.put(out);
    }
}

impl FromWords for Location {
    fn read(args: &mut Args<'_>) -> Location {
        args.read::<TrianglePointLocation>().into()
    }
}

// 0 done, 2 the refusal.
fn altered(altered: Altered) -> Changed {
    Changed {
        simplex: altered.simplex,
        answer: or_refused(altered.outcome),
    }
}

// 0 no, 1 yes, 2 the refusal.
fn added(added: Added) -> Changed {
    Changed {
        simplex: added.simplex,
        answer: or_refused(added.answer),
    }
}

// 0 taken, 7 no such location, 2 the refusal.
fn applied(applied: Applied) -> Changed {
    let number = match applied.outcome {
        Ok(()) => 0,
        Err(ApplyError::NoSuchLocation) => 7,
        Err(ApplyError::NoSimplex) => 2,
    };
    Changed {
        simplex: applied.simplex,
        answer: Answer::numbered(number),
    }
}

fn reduced(s: VoronoiSimplex) -> Changed {
    let reduced = reduce_lent(s);
    Changed {
        simplex: reduced.simplex,
        answer: or_refused(reduced.projection),
    }
}

// 0 an intersection, 1 two points and the direction, 2 a proximity and 3 no intersection with the direction, 4 the refusal.
fn searched(run: Gjk) -> Changed {
    let answer = match run.result {
        Ok(GJKResult::Intersection) => Answer::numbered(0),
        Ok(GJKResult::ClosestPoints(p1, p2, dir)) => Answer::vectors(1, p1, p2, dir),
        Ok(GJKResult::Proximity(first)) => Answer {
            number: 2,
            first,
            ..Answer::ZEROS
        },
        Ok(GJKResult::NoIntersection(first)) => Answer {
            number: 3,
            first,
            ..Answer::ZEROS
        },
        Err(WouldPanic) => Answer::numbered(4),
    };
    Changed {
        simplex: run.simplex,
        answer,
    }
}

// Of a simplex, the pose of the second shape, two shapes, the largest distance, and whether the distance is to be exact.
fn search(s: VoronoiSimplex, mut args: Args) -> Changed {
    let pose = args.read();
    let g1 = args.read();
    let g2 = args.read();
    let max_dist = args.read();
    let exact_dist = args.read::<u32>() != 0;
    searched(gjk::closest_points(pose, g1, g2, max_dist, exact_dist, s))
}

// Functions 60 to 70: 60 to 63 of a simplex and a vertex, 64 and 65 of a simplex and a location's kind, number and weights, 66 of a simplex
// and a vector, 67 of a simplex and two places, 68 of a simplex, 69 of nothing; 70 is GJK.
pub fn change(function: u32, mut args: Args) -> Changed {
    let s: VoronoiSimplex = args.read();
    match function {
        60 => altered(s.reset(args.read())),
        61 => altered(reset_lent(s, args.read())),
        62 => added(s.add_point(args.read())),
        63 => added(add_point_lent(s, args.read())),
        64 => applied(reduction::apply_location(s, args.read())),
        65 => applied(apply_lent(s, args.read())),
        66 => altered(s.modify_pnts(args.read())),
        67 => altered(s.swap(args.read(), args.read())),
        68 => reduced(s),
        69 => Changed {
            simplex: VoronoiSimplex::new(),
            answer: Answer::ZEROS,
        },
        _ => search(s, args),
    }
}
