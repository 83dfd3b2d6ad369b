// The expansions, one after another: the loop of `EPA::closest_points` of epa3.rs.
ghost use Rattle.std.specs.Prelude.{◌≡◌, ◌≤◌, Ok};
ghost use Rattle.std.specs.Float.{binary32};
ghost use Rattle.epa_polytope.specs.Stores.{state_of};
ghost use Rattle.epa_polytope.specs.Run.{pop_live, iterate, expansions};
ghost use Rattle.epa_polytope.specs.Promises.{visit_out, finish_out, walk_of};
ghost use Rattle.epa_polytope.specs.Code.{pop_out, completed_of, HeapWithin, CanExpand, first_best, Started};
ghost use Rattle.epa_stores.specs.Lent.{GivesAll, Kept, held, pair_by};

use epa_expansion::visit;
use epa_faces::answer_of;
use epa_polytope::{Best, FaceId, Finish, Found, Popped, Tally, Visited};
use epa_stores::Stores;
use shape::Pair;

// Entries go out until one is of a live face: `if face.deleted { continue }`.
fn pop_live(stores: &mut Stores<'_>, start: Tally) -> Popped
    requires { HeapWithin start (held stores.old).heap_ids (held stores.old).heap_keys }
    ensures leaves { GivesAll pop_out (pop_live start.heap) start result stores }
    ensures kept { Kept stores }
{
    let mut tally = start;
    // the heap's entries have a place each, so that it is never without room
    while let Some(popped) = heap::pop(stores.heap_ids, stores.heap_keys, tally.heap).unwrap_or(
        None,
    ) {
        tally.heap = popped.count;
        let id = popped.entry.face;
        if stores.deleted_at(id) == 0 {
            let neg_dist = popped.entry.key;
            let entry = Some(FaceId { id, neg_dist });
            return Popped { entry, tally };
        }
    }
    Popped { entry: None, tally }
}

// The expansion is complete: `niter += 1`.
fn completed(visited: Visited) -> Visited
    requires { visited.tally.done ≤ 100 }
    ensures { Ok result ≡ completed_of (Ok visited) }
{
    let tally = Tally {
        done: visited.tally.done + 1,
        ..visited.tally
    };
    Visited { tally, ..visited }
}

// The next live face is popped and expanded; where there is none, the run ends at the best face.
fn iterate<const PLAIN: bool>(
    stores: &mut Stores<'_>,
    tally: Tally,
    pair: &Pair,
    tol: f32,
    best: Best,
) -> Result<Visited, Finish>
    requires { CanExpand tally (held stores.old).heap_ids (held stores.old).heap_keys }
    ensures leaves { GivesAll visit_out (iterate (pair_by (walk_of PLAIN) pair.now) tol best) tally result stores }
    ensures kept { Kept stores }
{
    let popped = pop_live(stores, tally);
    let Some(face_id) = popped.entry else {
        let end = answer_of(
            Found::HeapEmpty,
            &mut *stores.vertices,
            &mut *stores.ids,
            &mut *stores.floats,
            best.face,
        );
        return Err(Finish {
            end,
            tally: popped.tally,
        });
    };
    let visited = visit::<PLAIN>(stores, popped.tally, pair, tol, best, face_id)?;
    Ok(completed(visited))
}

// What the expansions begin with: the face that the heap has first, and no bound yet.
fn first_best(stores: &Stores<'_>) -> Best
    ensures { result ≡ first_best binary32 (held stores.now).heap_ids }
{
    Best {
        face: stores.heap_ids.first().copied().unwrap_or(0),
        bound: number::largest(),
        last: 0.0,
    }
}

// The expansions, at most 101, from the face that the heap has first: one has been queued by then.
pub(crate) fn expansions<const PLAIN: bool>(
    stores: &mut Stores<'_>,
    start: Tally,
    pair: &Pair,
    tol: f32,
) -> Finish
    requires { Started (pair_by (walk_of PLAIN) pair.now) tol (state_of (held stores.old) start) }
    ensures leaves { GivesAll finish_out (expansions (pair_by (walk_of PLAIN) pair.now) tol) start result stores }
    ensures kept { Kept stores }
{
    let mut tally = start;
    let mut best = first_best(stores);
    for _turn in 0..101_usize {
        match iterate::<PLAIN>(stores, tally, pair, tol, best) {
            Ok(visited) => {
                best = visited.best;
                tally = visited.tally;
            }
            Err(finish) => return finish,
        }
    }
    let end = answer_of(
        Found::EnoughExpansions,
        &mut *stores.vertices,
        &mut *stores.ids,
        &mut *stores.floats,
        best.face,
    );
    Finish { end, tally }
}
