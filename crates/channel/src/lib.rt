// The separation channel: from two shapes and the pose of the second in the frame of the first, how far apart they are by
// GJK, and where they meet, how deep by the expanding polytope, whose silhouette is walked without recursion. The answer is what a record's line tells.
#![tactic(auto)]

ghost use Rattle.std.specs.Prelude.{◌≡◌};
ghost use Rattle.std.specs.Float.{binary32};
ghost use Rattle.epa_stores.specs.Lent.{held, Kept};
ghost use Rattle.epa.specs.Final.{EndsAll};
ghost use Rattle.number.specs.Told.{Told};
ghost use Rattle.lines.specs.Lines.{outcome_number, outcome_values};
ghost use Rattle.channel.specs.Channel.{start_of, separated};

use casefile::Case;
use epa_stores::Stores;
use gjk::GJKResult;
use lines::Outcome;
use outcome::outcome_of;
use refusal::WouldPanic;
use shape::Pair;
use simplex::VoronoiSimplex;
use vector::Vec3;

// A new simplex, reset to the support point of `dir`. It is a simplex, so that the reset is not refused.
pub fn start_of(pair: &Pair, dir: Vec3) -> VoronoiSimplex
    ensures { result ≡ start_of binary32 pair.now.pos12 pair.now.g1 pair.now.g2 dir }
{
    let first = pair.support_point(dir);
    VoronoiSimplex::new().reset(first).simplex
}

// The channel's answer, whatever the shapes, the numbers and the stores' lengths. The stores are altered only where the shapes meet.
pub fn separate(asked: Case, stores: &mut Stores<'_>) -> Outcome
    ensures answer { EndsAll (separated binary32 asked.pos12 asked.g1 asked.g2 asked.dir asked.max_dist asked.exact) result stores }
    ensures told { Told outcome_number outcome_values result
        (separated binary32 asked.pos12 asked.g1 asked.g2 asked.dir asked.max_dist asked.exact (held stores.old)).answer }
    ensures kept { Kept stores }
{
    let Case {
        g1,
        g2,
        pos12,
        dir,
        max_dist,
        exact,
    } = asked;
    let pair = Pair { pos12, g1, g2 };
    let start = start_of(&pair, dir);
    let run = gjk::closest_points(pos12, g1, g2, max_dist, exact, start);
    let left = run.simplex;
    match run.result {
        Ok(GJKResult::Intersection) => {
            // The lists go on one by one: handed on in one value, to `closest_points_by`, they cost the program a twentieth more instructions.
            let answer = epa::closest_points_plain(
                pos12,
                g1,
                g2,
                left,
                stores.vertices,
                stores.ids,
                stores.floats,
                stores.deleted,
                stores.edges,
                stores.heap_ids,
                stores.heap_keys,
                stores.pending,
            );
            outcome_of(answer)
        }
        Ok(GJKResult::ClosestPoints(p1, p2, normal)) => Outcome::ClosestPoints(p1, p2, normal),
        Ok(GJKResult::Proximity(normal)) => Outcome::Proximity(normal),
        Ok(GJKResult::NoIntersection(normal)) => Outcome::NoIntersection(normal),
        Err(WouldPanic) => Outcome::Panic,
    }
}
