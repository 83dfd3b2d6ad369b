// The stores of a run in one value, as the Rust's `EPA` has them: the eight lists that the caller lends travel together.
ghost use Rattle.std.specs.Prelude.{◌≡◌, get_or};
ghost use Rattle.epa_polytope.specs.PlainWalk.{question_at};
ghost use Rattle.epa_polytope.specs.Stores.{vertex_at, normal_of, weights_of, corner_in};
ghost use Rattle.epa_stores.specs.Lent.{held};

use epa_polytope::Question;
use shape::Vertex;
use vector::Vec3;

// Nine numbers a vertex; of a face six whole numbers, six floats and a mark; of an edge two numbers; the heap's faces and keys; and of a
// pending question two numbers.
#[derive(Drop)]
pub struct Stores<'a> {
    pub vertices: &'a mut [f32],
    pub ids: &'a mut [usize],
    pub floats: &'a mut [f32],
    pub deleted: &'a mut [u8],
    pub edges: &'a mut [usize],
    pub heap_ids: &'a mut [usize],
    pub heap_keys: &'a mut [f32],
    pub pending: &'a mut [usize],
}

impl Stores<'_> {
    // The vertex i.
    pub fn vertex_at(&self, i: usize) -> Vertex
        ensures { result ≡ vertex_at (held self.now).vertices i }
    {
        crate::vertex_at(self.vertices, i)
    }

    // The corner k of the face i.
    pub fn corner_at(&self, i: usize, k: usize) -> usize
        ensures { result ≡ corner_in (held self.now).face_ids i k }
    {
        crate::corner_at(self.ids, i, k)
    }

    // The normal of the face i, and the weights of its corners.
    pub fn normal_of(&self, i: usize) -> Vec3
        ensures { result ≡ normal_of (held self.now).face_floats i }
    {
        crate::normal_of(self.floats, i)
    }

    pub fn weights_of(&self, i: usize) -> Vec3
        ensures { result ≡ weights_of (held self.now).face_floats i }
    {
        crate::weights_of(self.floats, i)
    }

    // Whether the face i is deleted (0: live).
    pub fn deleted_at(&self, i: usize) -> u8
        ensures { result ≡ get_or (held self.now).deleted i 1 }
    {
        crate::deleted_at(self.deleted, i)
    }

    // The edge i: a face, and a corner of it.
    pub fn edge_at(&self, i: usize) -> Question
        ensures { result ≡ question_at (held self.now).edges i }
    {
        crate::question_at(self.edges, i)
    }
}
