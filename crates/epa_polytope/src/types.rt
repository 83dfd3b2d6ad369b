// What the polytope's run passes from hand to hand: questions of the walk, what a face is made of, how far
// it has come, and how it ends. By value, but for the stores, which the caller lends.
use refusal::NoRoom;
use vector::Vec3;

// A face, and a corner of it: whether the face is seen, asked across the side that the corner lies opposite
// (the Rust's `face_id` and `opp_pt_id`).
#[derive(Clone, Copy)]
pub struct Question {
    pub face: usize,
    pub corner: usize,
}

// The question to a neighbour, and how many lookups of the run have missed.
#[derive(Clone, Copy)]
pub struct Facing {
    pub question: Question,
    pub missed: usize,
}

// How far a walk has come: how it would end here, with the number of edges that are now recorded or for want of room, and
// how many lookups of the run have missed.
#[derive(Clone, Copy)]
pub struct WalkSoFar {
    pub answer: Result<usize, NoRoom>,
    pub missed: usize,
}

// How far a plain walk has come: the same, the questions that are held, and whether there was no place for one. That is
// no error in the answer's place, since the edges recorded until then are counted all the same (`recorded_of`).
#[derive(Clone, Copy)]
pub struct PlainSoFar {
    pub answer: Result<usize, NoRoom>,
    pub missed: usize,
    pub held: usize,
    pub short: bool,
}

// Which walk a run uses: the Rust's own, or the one without recursion. The definitions have it; the code has a const
// parameter for it, and `pass_by` of epa_plain_walk says why.
#[derive(Clone, Copy)]
pub enum Walk {
    Recursive,
    Plain,
}

// What a face is made of, besides the numbers of its corners and neighbours: the normal, the weights of the
// corners, and whether it holds the projection of the origin (of `Face::new`: `normal`, `bcoords` and `proj_inside`).
#[derive(Clone, Copy)]
pub struct Made {
    pub normal: Vec3,
    pub weights: Vec3,
    pub holds: bool,
}

// The numbers of three corners or three neighbours.
#[derive(Clone, Copy)]
pub struct Three {
    pub a: usize,
    pub b: usize,
    pub c: usize,
}

// How far a run has come: the entries in each store, the expansions completed, the most edges recorded in one
// pass, and the lookups that missed.
#[derive(Clone, Copy)]
pub struct Tally {
    pub vertices: usize,
    pub faces: usize,
    pub edges: usize,
    pub heap: usize,
    pub pending: usize,
    pub done: usize,
    pub most: usize,
    pub missed: usize,
}

// The store that was full.
#[derive(Clone, Copy)]
pub enum Store {
    Vertices,
    Faces,
    Edges,
    Heap,
    Pending,
}

// Why there is an answer.
#[derive(Clone, Copy)]
pub enum Found {
    // the start is one point, and no direction leads away from it
    SinglePoint,
    // the best bound is within the tolerance
    Converged,
    // no new points will be found
    Stuck,
    // a new face lies nearer than the one that is expanded
    NewFaceNearer,
    // 101 expansions are complete
    EnoughExpansions,
    // no live face is left in the heap
    HeapEmpty,
}

// Why there is none.
#[derive(Clone, Copy)]
pub enum Lost {
    // a starting face's key is refused
    KeyAtStart,
    // no starting face holds the projection
    NoneHolds,
    // no edge was recorded
    NoSilhouette,
    // each edge recorded is of a deleted face
    AllDeleted,
    // a new face's key is refused
    KeyLater,
}

// Where the Rust panics.
#[derive(Clone, Copy)]
pub enum Site {
    // the value given is no simplex
    NotASimplex,
    // two vertices that span no direction: `vertices[2]` in the first face
    NoThirdVertex,
}

// How a run ends: with a point on each shape and a normal; with none; where the Rust panics; or for want of
// room.
#[derive(Clone, Copy)]
pub enum End {
    Answers(Found, Vec3, Vec3, Vec3),
    Nothing(Lost),
    Panics(Site),
    NoRoom(Store),
}

// How a run ended, and how far it came: the `Err` of each step. Its `Ok` is how far the run has come, with what it goes on
// with.
#[derive(Clone, Copy)]
pub struct Finish {
    pub end: End,
    pub tally: Tally,
}

// After the start: the run has its first faces, and goes on with the tolerance of its keys.
#[derive(Clone, Copy)]
pub struct Begun {
    pub tol: f32,
    pub tally: Tally,
}

// After an expansion: the run goes on with what is carried to the next one.
#[derive(Clone, Copy)]
pub struct Visited {
    pub best: Best,
    pub tally: Tally,
}

// A face and its key, the negated distance (`FaceId` of epa3.rs).
#[derive(Clone, Copy)]
pub struct FaceId {
    pub id: usize,
    pub neg_dist: f32,
}

// What is known of an expansion under way: the face that is expanded, its distance, the new vertex, and the
// tolerance of the keys (the Rust's `face_id.id`, `curr_dist`, `support_point_id` and `dist_tol`).
#[derive(Clone, Copy)]
pub struct Expansion {
    pub face: usize,
    pub dist: f32,
    pub point: usize,
    pub tol: f32,
}

// What is carried from one expansion to the next: the best face, the best bound, and the distance of the
// last face (the Rust's `best_face_id`, `max_dist` and `old_dist`).
#[derive(Clone, Copy)]
pub struct Best {
    pub face: usize,
    pub bound: f32,
    pub last: f32,
}

// The entry of a live face that was popped, or none, and how far the run has come.
#[derive(Clone, Copy)]
pub struct Popped {
    pub entry: Option<FaceId>,
    pub tally: Tally,
}
