// Why the run of each record of a case file ended (document 02, ticket 5): a line for each record that reached the polytope.
#![tactic(auto)]

ghost use Rattle.std.specs.Float.{binary32};
ghost use Rattle.epa_stores.specs.Lent.{Kept};
ghost use Rattle.epa.specs.Final.{EndsAll};
ghost use Rattle.stream.specs.Reading.{told};
ghost use Rattle.reason.specs.Turns.{reason_for, reason_turn};

mod reasons;
mod words;

use casefile::{Case, Got};
use epa_stores::Stores;
use gjk::GJKResult;
pub use reasons::{Reason, reason_of};
use refusal::WouldPanic;
use shape::Pair;
use window::Turn;
pub use words::{write_maybe, write_reason};

// The channel's run, as `channel::separate` has it, and why the polytope's part of it ended: none where GJK answered, or the
// Rust panics in GJK.
pub fn find_reason(asked: Case, stores: &mut Stores<'_>) -> Option<Reason>
    ensures answer { EndsAll (reason_for binary32 asked.pos12 asked.g1 asked.g2 asked.dir asked.max_dist asked.exact) result stores }
    ensures kept { Kept stores }
{
    let Case {
        g1,
        g2,
        pos12,
        dir,
        max_dist,
        exact,
    } = asked;
    let pair = Pair { pos12, g1, g2 };
    let start = channel::start_of(&pair, dir);
    let run = gjk::closest_points(pos12, g1, g2, max_dist, exact, start);
    match run.result {
        Ok(GJKResult::Intersection) => {
            // the lists one by one, as `channel::separate` hands them on
            let answer = epa::closest_points_plain(
                pos12,
                g1,
                g2,
                run.simplex,
                stores.vertices,
                stores.ids,
                stores.floats,
                stores.deleted,
                stores.edges,
                stores.heap_ids,
                stores.heap_keys,
                stores.pending,
            );
            Some(reason_of(answer.end))
        }
        Ok(GJKResult::ClosestPoints(_, _, _)) => None,
        Ok(GJKResult::Proximity(_)) => None,
        Ok(GJKResult::NoIntersection(_)) => None,
        Err(WouldPanic) => None,
    }
}

// The next record is read and run, and the line of its reason, if it has one, goes to the places of `out` from `place` on.
// A hint, as at `stream::answer_next`.
#[inline(always)]
pub fn reason_next(
    bytes: &[u8],
    at: usize,
    base: u64,
    number: u64,
    out: &mut [u8],
    place: usize,
    stores: &mut Stores<'_>,
) -> Turn
    ensures answer { EndsAll (reason_turn binary32 bytes.now at base number out.old place) (told result out.new) stores }
    ensures kept { Kept stores }
{
    match stream::read_next(bytes, at, base, number, out, place) {
        Ok(Got { value: case, next }) => {
            let reason = find_reason(case, stores);
            let written = write_maybe(out, place, number, reason);
            window::line_turn(next, written)
        }
        Err(turn) => turn,
    }
}
