// Penetration with the silhouette's store lent as one list of records, each a face number and a corner. The run goes on a row of
// numbers, two places an edge, and what it holds at the end is written back over the records.
#![tactic(auto)]

ghost use Rattle.std.specs.Prelude.{◌≡◌};
ghost use Rattle.std.specs.Float.{binary32};
ghost use Rattle.epa_polytope.specs.declared.types.Walk.TheVariants.{Plain as plain};
ghost use Rattle.epa.specs.Final.{Ends, penetration};
ghost use Rattle.epa_lent.specs.Lent.{records_lent, on_first};

use edges::{Edge, Row};
use epa::Answer;
use shape::Shape;
use simplex::VoronoiSimplex;
use vector::Pose;

// `EPA::closest_points`, by the plain walk, over five stores.
pub fn closest_points(
    pos12: Pose,
    g1: Shape,
    g2: Shape,
    simplex: VoronoiSimplex,
    vertices: &mut [f32],
    ids: &mut [usize],
    floats: &mut [f32],
    deleted: &mut [u8],
    edges: &mut [Edge],
    heap_ids: &mut [usize],
    heap_keys: &mut [f32],
    pending: &mut [usize],
) -> Answer
    ensures { Ends (on_first (penetration plain binary32 pos12 g1 g2 simplex)) result
        (λ m. records_lent m vertices ids floats deleted edges heap_ids heap_keys pending) }
{
    // These steps stand in `channel_lent` too: a function that took the run as a closure would ask of its caller that it can be called.
    let Row { mut pairs, n } = edges::row_of(edges);
    let answer = epa::closest_points_plain(
        pos12,
        g1,
        g2,
        simplex,
        vertices,
        ids,
        floats,
        deleted,
        &mut pairs[..n * 2],
        heap_ids,
        heap_keys,
        pending,
    );
    edges::publish(edges, Row { pairs, n });
    answer
}
