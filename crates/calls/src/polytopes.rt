// The polytope: function 74, of a simplex, the pose of the second shape, two shapes, and seven lists of at most 6,144, each as its place
// among the arguments and its length: vertices, ids, floats, deleted, edges, heap_ids, heap_keys. After the answer (the way out, in the
// order of `told`, two points and a normal) come the five counts and the lists. Function 75 is the same with the plain walk, and has an
// eighth list: pending.
use crate::answers::Answer;
use crate::words::{Args, Output, ToWords};
use epa_polytope::End;
use epa_stores::Stores;
use shape::Shape;
use simplex::VoronoiSimplex;
use vector::Pose;

// Document 01's ways out, numbered in their order: with an answer from 0, with none from 6, where the Rust panics from 11, for want of room
// from 13.
fn told(end: End) -> Answer {
    match end {
        End::Answers(why, p1, p2, normal) => Answer::vectors(why as usize, p1, p2, normal),
        End::Nothing(why) => Answer::numbered(6 + why as usize),
        End::Panics(site) => Answer::numbered(11 + site as usize),
        End::NoRoom(store) => Answer::numbered(13 + store as usize),
    }
}

impl ToWords for epa::Answer {
    fn put(&self, out: &mut Output) {
        let counts = self.counts;
        told(self.end).put(out);
        out.put_list(&[
            counts.expansions,
            counts.made,
            counts.live,
            counts.edges,
            counts.missed,
        ]);
    }
}

impl ToWords for Stores<'_> {
    fn put(&self, out: &mut Output) {
        out.put_list(self.vertices);
        out.put_list(self.ids);
        out.put_list(self.floats);
        out.put_list(self.deleted);
        out.put_list(self.edges);
        out.put_list(self.heap_ids);
        out.put_list(self.heap_keys);
        out.put_list(self.pending);
    }
}

fn run(plain: bool, mut args: Args, lists: &mut Stores) -> epa::Answer {
    let s: VoronoiSimplex = args.read();
    let pose: Pose = args.read();
    let g1: Shape = args.read();
    let g2: Shape = args.read();
    if plain {
        epa::closest_points_plain(
            pose,
            g1,
            g2,
            s,
            lists.vertices,
            lists.ids,
            lists.floats,
            lists.deleted,
            lists.edges,
            lists.heap_ids,
            lists.heap_keys,
            lists.pending,
        )
    } else {
        epa::closest_points(
            pose,
            g1,
            g2,
            s,
            lists.vertices,
            lists.ids,
            lists.floats,
            lists.deleted,
            lists.edges,
            lists.heap_ids,
            lists.heap_keys,
        )
    }
}

pub fn answer(plain: bool, args: Args, out: &mut Output) {
    let mut vertices = [0.0; 6_144];
    let mut ids = [0; 6_144];
    let mut floats = [0.0; 6_144];
    let mut deleted = [0; 6_144];
    let mut edges = [0; 6_144];
    let mut heap_ids = [0; 6_144];
    let mut heap_keys = [0.0; 6_144];
    let mut pending = [0; 6_144];
    // the recursive walk has no such list
    let asked = if plain { 6_144 } else { 0 };
    let mut rest = args.after(81);
    let mut lists = Stores {
        vertices: rest.list(&mut vertices),
        ids: rest.list(&mut ids),
        floats: rest.list(&mut floats),
        deleted: rest.list(&mut deleted),
        edges: rest.list(&mut edges),
        heap_ids: rest.list(&mut heap_ids),
        heap_keys: rest.list(&mut heap_keys),
        pending: rest.list(&mut pending[..asked]),
    };
    run(plain, args, &mut lists).put(out);
    lists.put(out);
}
