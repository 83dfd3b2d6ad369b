// The separation channel with the silhouette's store lent as one list of records, each a face number and a corner: what the crate
// `channel` does on a row of numbers, two places an edge, which is written back over the records.
#![tactic(auto)]

ghost use Rattle.std.specs.Prelude.{◌≡◌};
ghost use Rattle.std.specs.Float.{binary32};
ghost use Rattle.epa.specs.Final.{Ends, all_lent};
ghost use Rattle.epa_lent.specs.Lent.{records_lent, on_first};
ghost use Rattle.channel.specs.Channel.{separated};

use casefile::Case;
use edges::{Edge, Row};
use epa_stores::Stores;
use lines::Outcome;
use shape::Shape;
use vector::{Pose, Vec3};

// The channel on a row of numbers: the stores, which are lent one by one, in one value.
fn on_numbers(
    asked: Case,
    vertices: &mut [f32],
    ids: &mut [usize],
    floats: &mut [f32],
    deleted: &mut [u8],
    edges: &mut [usize],
    heap_ids: &mut [usize],
    heap_keys: &mut [f32],
    pending: &mut [usize],
) -> Outcome
    ensures { Ends (separated binary32 asked.pos12 asked.g1 asked.g2 asked.dir asked.max_dist asked.exact) result
        (λ m. all_lent m vertices ids floats deleted edges heap_ids heap_keys pending) }
{
    let mut stores = Stores {
        vertices,
        ids,
        floats,
        deleted,
        edges,
        heap_ids,
        heap_keys,
        pending,
    };
    channel::separate(asked, &mut stores)
}

// The channel's answer, whatever the shapes, the numbers and the stores' lengths. What is asked and what is lent stand one by one, as
// `separation_run` of `embedding` gets them from C.
pub fn separate(
    pos12: Pose,
    g1: Shape,
    g2: Shape,
    dir: Vec3,
    max_dist: f32,
    exact: bool,
    vertices: &mut [f32],
    ids: &mut [usize],
    floats: &mut [f32],
    deleted: &mut [u8],
    edges: &mut [Edge],
    heap_ids: &mut [usize],
    heap_keys: &mut [f32],
    pending: &mut [usize],
) -> Outcome
    ensures { Ends (on_first (separated binary32 pos12 g1 g2 dir max_dist exact)) result
        (λ m. records_lent m vertices ids floats deleted edges heap_ids heap_keys pending) }
{
    // These steps stand in `epa_lent` too: a function that took the run as a closure would ask of its caller that it can be called.
    let Row { mut pairs, n } = edges::row_of(edges);
    let asked = Case {
        g1,
        g2,
        pos12,
        dir,
        max_dist,
        exact,
    };
    let outcome = on_numbers(
        asked,
        vertices,
        ids,
        floats,
        deleted,
        &mut pairs[..n * 2],
        heap_ids,
        heap_keys,
        pending,
    );
    edges::publish(edges, Row { pairs, n });
    outcome
}
