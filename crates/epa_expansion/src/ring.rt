// New faces join the new vertex to the silhouette, and make a ring (of the body of the loop of `EPA::closest_points` what follows the three
// calls of `compute_silhouette`, to `self.silhouette.clear()`).
ghost use Rattle.std.specs.Prelude.{◌≡◌, Ok};
ghost use Rattle.epa_polytope.specs.Expansion.{blank, clear_edges, close_ring, regrow};
ghost use Rattle.epa_polytope.specs.Promises.{single};
ghost use Rattle.epa_stores.specs.Lent.{LeavesAll, Kept};

use epa_growth::grow_all;
use epa_polytope::{End, Expansion, Finish, Lost, Question, Tally};
use epa_stores::{Stores, before, put_question, set_neighbour};

// The first n pairs of places become zero.
fn clear_pairs(l: &mut [usize], n: usize)
    ensures { l.new ≡ blank n l.old }
{
    for i in 0..n {
        put_question(l, i, Question { face: 0, corner: 0 });
    }
}

// `self.silhouette.clear()`: no edge is left.
fn clear_edges(stores: &mut Stores<'_>, tally: Tally) -> Tally
    ensures leaves { LeavesAll clear_edges tally (Ok result) stores }
    ensures kept { Kept stores }
{
    clear_pairs(stores.edges, tally.edges);
    Tally { edges: 0, ..tally }
}

// The ring of new faces, from the face `first` on, is closed, and the edges are cleared.
fn close_ring(stores: &mut Stores<'_>, tally: Tally, first: usize) -> Result<Tally, Finish>
    ensures leaves { LeavesAll (close_ring first) tally result stores }
    ensures kept { Kept stores }
{
    if tally.faces == first {
        let end = End::Nothing(Lost::AllDeleted);
        return Err(Finish { end, tally });
    }
    let last = before(tally.faces);
    set_neighbour(stores.ids, first, 2, last);
    set_neighbour(stores.ids, last, 1, first);
    Ok(clear_edges(stores, tally))
}

// New faces join the new vertex to the silhouette.
pub fn regrow(stores: &mut Stores<'_>, tally: Tally, expansion: Expansion) -> Result<Tally, Finish>
    ensures leaves { LeavesAll (regrow single expansion) tally result stores }
    ensures kept { Kept stores }
{
    if tally.edges == 0 {
        let end = End::Nothing(Lost::NoSilhouette);
        return Err(Finish { end, tally });
    }
    let grown = grow_all(
        &mut *stores.vertices,
        stores.ids,
        stores.floats,
        stores.deleted,
        &mut *stores.edges,
        stores.heap_ids,
        stores.heap_keys,
        tally,
        expansion,
        tally.edges,
    )?;
    close_ring(stores, grown, tally.faces)
}
