// Penetration: from two shapes that meet, the pose of the second in the frame of the first, and the simplex that GJK ended with, a
// point on each and a normal, by the expanding polytope of epa3.rs. The caller lends the four stores, or five: where the silhouette is
// walked without recursion, the pending questions too.
#![tactic(auto)]

ghost use Rattle.std.specs.Prelude.{◌≡◌};
ghost use Rattle.std.specs.Float.{binary32};
ghost use Rattle.number.specs.Told.{Told};
ghost use Rattle.epa_polytope.specs.Stores.{none_yet};
ghost use Rattle.epa_polytope.specs.Run.{epa};
ghost use Rattle.epa_polytope.specs.Promises.{finish_out, walk_of, called};
ghost use Rattle.epa_polytope.specs.declared.types.Walk.TheVariants.{Recursive as recursive, Plain as plain};
ghost use Rattle.epa_stores.specs.Lent.{GivesAll, Kept, held, pair_by};
ghost use Rattle.epa.specs.Final.{four_lent, all_lent, Ends, EndsAll, penetration, answer_at, counts_at, answer_number, answer_values};

mod expansions;
mod types;

use counts::Counts;
use epa_polytope::{Finish, Tally};
use epa_start::begin;
use epa_stores::{Stores, live_to};
use expansions::expansions;
use shape::{Pair, Shape};
use simplex::VoronoiSimplex;
pub use types::Answer;
use vector::Pose;

// The start, and the expansions, over stores with no entries.
fn run<const PLAIN: bool>(stores: &mut Stores<'_>, pair: &Pair, simplex: VoronoiSimplex) -> Finish
    ensures leaves { GivesAll finish_out (epa (pair_by (walk_of PLAIN) pair.now) simplex) none_yet result stores }
    ensures kept { Kept stores }
{
    match begin(stores, pair, simplex) {
        Err(finish) => finish,
        Ok(begun) => expansions::<PLAIN>(stores, begun.tally, pair, begun.tol),
    }
}

// The counts of a run that has ended.
fn counts_of(stores: &Stores<'_>, tally: Tally) -> Counts
    ensures { result ≡ counts_at (held stores.now).deleted tally }
{
    Counts {
        expansions: tally.done,
        made: tally.faces,
        live: live_to(stores.deleted, tally.faces),
        edges: tally.most,
        missed: tally.missed,
    }
}

// The answer with its counts.
fn answer_at(stores: &Stores<'_>, finish: Finish) -> Answer
    ensures { result ≡ answer_at (held stores.now).deleted finish }
{
    let end = finish.end;
    let counts = counts_of(stores, finish.tally);
    Answer { end, counts }
}

// `EPA::closest_points`, by the recursive walk or by the plain one, over the stores in one value. The recursive walk asks no question.
pub fn closest_points_by<const PLAIN: bool>(
    stores: &mut Stores<'_>,
    pair: &Pair,
    simplex: VoronoiSimplex,
) -> Answer
    ensures answer { EndsAll (penetration (walk_of PLAIN) binary32 pair.now.pos12 pair.now.g1 pair.now.g2 simplex) result stores }
    ensures told { Told answer_number answer_values result
        (penetration (walk_of PLAIN) binary32 pair.now.pos12 pair.now.g1 pair.now.g2 simplex (held stores.old)).answer }
    ensures kept { Kept stores }
{
    let finish = run::<PLAIN>(stores, pair, simplex);
    answer_at(stores, finish)
}

// The same by the recursive walk, over four stores that are lent one by one: no question is ever pending.
pub fn closest_points(
    pos12: Pose,
    g1: Shape,
    g2: Shape,
    simplex: VoronoiSimplex,
    vertices: &mut [f32],
    ids: &mut [usize],
    floats: &mut [f32],
    deleted: &mut [u8],
    edges: &mut [usize],
    heap_ids: &mut [usize],
    heap_keys: &mut [f32],
) -> Answer
    ensures answer { Ends (penetration recursive binary32 pos12 g1 g2 simplex) result (λ m. four_lent m vertices ids floats deleted edges heap_ids heap_keys) }
    ensures told { Told answer_number answer_values result
        (penetration recursive binary32 pos12 g1 g2 simplex (four_lent called vertices ids floats deleted edges heap_ids heap_keys)).answer }
{
    let pair = Pair { pos12, g1, g2 };
    let mut stores = Stores {
        vertices,
        ids,
        floats,
        deleted,
        edges,
        heap_ids,
        heap_keys,
        pending: &mut [],
    };
    closest_points_by::<false>(&mut stores, &pair, simplex)
}

// And by the plain walk, over five.
pub fn closest_points_plain(
    pos12: Pose,
    g1: Shape,
    g2: Shape,
    simplex: VoronoiSimplex,
    vertices: &mut [f32],
    ids: &mut [usize],
    floats: &mut [f32],
    deleted: &mut [u8],
    edges: &mut [usize],
    heap_ids: &mut [usize],
    heap_keys: &mut [f32],
    pending: &mut [usize],
) -> Answer
    ensures answer { Ends (penetration plain binary32 pos12 g1 g2 simplex) result (λ m. all_lent m vertices ids floats deleted edges heap_ids heap_keys pending) }
    ensures told { Told answer_number answer_values result
        (penetration plain binary32 pos12 g1 g2 simplex (all_lent called vertices ids floats deleted edges heap_ids heap_keys pending)).answer }
{
    let pair = Pair { pos12, g1, g2 };
    let mut stores = Stores {
        vertices,
        ids,
        floats,
        deleted,
        edges,
        heap_ids,
        heap_keys,
        pending,
    };
    closest_points_by::<true>(&mut stores, &pair, simplex)
}
