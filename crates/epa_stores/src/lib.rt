// Reads and writes of the lent lists, which hold the fields of `EPA`, `Face` and `SilhouetteEdge` of epa3.rs. A place that a list hasn't
// got reads as 0, as NaNs, or as deleted, and a write to it does nothing: so these ask nothing of their caller. Between two
// expansions every number that a list holds is in range (`in-range` of the crate `epa_polytope`).
// Flat lists of numbers they stay, since the C interface lends them so (`separation_stores`).
#![tactic(auto)]

ghost use Rattle.std.specs.Prelude.{◌≡◌, ◌+◌, ◌-◌, ◌*◌, ◌<◌, ◌≤◌, [], length, get_or, set};
ghost use Rattle.std.proofs.lemmas.List.Edits.{sets};
ghost use Rattle.epa_polytope.specs.Silhouette.{pair_put};
ghost use Rattle.epa_polytope.specs.PlainWalk.{question_at};
ghost use Rattle.epa_polytope.specs.Stores.{vec_at, vec_cells, vertex_at, put_vertex, normal_of, weights_of, put_made, live_to, corner_in, neighbour_in, linked_in};

mod stores;

use epa_polytope::{Made, Question};
use shape::Vertex;
pub use stores::Stores;
use vector::Vec3;

// ---- of a face its corners and its neighbours, of an edge and of a pending question a face and a corner of it

// The number k of the record i, in a list of records of W numbers each.
fn number_at<const W: usize>(l: &[usize], i: usize, k: usize) -> usize
    requires { 0 < W }
    ensures { result ≡ get_or l.now (i * W + k) 0 }
{
    let n = l.len();
    if i <= n / W {
        if k < n - i * W {
            return l[i * W + k];
        }
    }
    0
}

fn set_number_at<const W: usize>(l: &mut [usize], i: usize, k: usize, v: usize)
    requires { 0 < W }
    ensures { l.new ≡ set l.old (i * W + k) v }
{
    let n = l.len();
    if i <= n / W {
        if k < n - i * W {
            l[i * W + k] = v;
        }
    }
}

// The corner k of the face i.
pub fn corner_at(ids: &[usize], i: usize, k: usize) -> usize
    ensures { result ≡ corner_in ids.now i k }
{
    number_at::<6>(ids, i, k)
}

// Its neighbour k.
pub fn neighbour_at(ids: &[usize], i: usize, k: usize) -> usize
    ensures { result ≡ neighbour_in ids.now i k }
{
    number_at::<6>(ids, i, k.saturating_add(3))
}

// `faces[i].adj[k] = j`
pub fn set_neighbour(ids: &mut [usize], i: usize, k: usize, j: usize)
    ensures { ids.new ≡ linked_in ids.old i k j }
{
    set_number_at::<6>(ids, i, k.saturating_add(3), j);
}

// The place k of the pair i.
pub fn pair_at(l: &[usize], i: usize, k: usize) -> usize
    ensures { result ≡ get_or l.now (i * 2 + k) 0 }
{
    number_at::<2>(l, i, k)
}

pub fn set_pair_at(l: &mut [usize], i: usize, k: usize, v: usize)
    ensures { l.new ≡ set l.old (i * 2 + k) v }
{
    set_number_at::<2>(l, i, k, v);
}

// The pair i as a question.
pub fn question_at(l: &[usize], i: usize) -> Question
    ensures { result ≡ question_at l.now i }
{
    Question {
        face: pair_at(l, i, 0),
        corner: pair_at(l, i, 1),
    }
}

pub fn put_question(l: &mut [usize], i: usize, q: Question)
    ensures { l.new ≡ pair_put l.old i q }
{
    set_pair_at(l, i, 0, q.face);
    set_pair_at(l, i, 1, q.corner);
}

// The number before n, and 0 before 0.
pub fn before(n: usize) -> usize
    ensures { result ≡ n - 1 }
{
    n.saturating_sub(1)
}

// ---- which faces are deleted (0: live)

pub fn deleted_at(deleted: &[u8], i: usize) -> u8
    ensures { result ≡ get_or deleted.now i 1 }
{
    deleted.get(i).copied().unwrap_or(1)
}

pub fn set_deleted(deleted: &mut [u8], i: usize, v: u8)
    ensures { deleted.new ≡ set deleted.old i v }
{
    if i < deleted.len() {
        deleted[i] = v;
    }
}

// How many of the first n faces are live. A `for`, since the chain `iter().take(n).filter(..).count()` takes eight times as long.
pub fn live_to(deleted: &[u8], n: usize) -> usize
    ensures { result ≡ live_to n deleted.now }
{
    let mut live = 0;
    for i in 0..n {
        if deleted_at(deleted, i) == 0 {
            live += 1;
        }
    }
    live
}

// ---- vectors, vertices, and the numbers of a face

// What a place that a list hasn't got reads as.
const NOWHERE: Vec3 = Vec3 {
    x: f32::NAN,
    y: f32::NAN,
    z: f32::NAN,
};

fn vec_at(l: &[f32], at: usize) -> Vec3
    requires { at + 3 ≤ length l.now }
    ensures { result ≡ vec_at l.now at }
{
    Vec3 {
        x: l[at],
        y: l[at + 1],
        z: l[at + 2],
    }
}

fn put_vec(l: &mut [f32], at: usize, v: Vec3)
    requires { at + 3 ≤ length l.old }
    ensures { l.new ≡ sets l.old at (vec_cells v []) }
{
    l[at] = v.x;
    l[at + 1] = v.y;
    l[at + 2] = v.z;
}

pub fn vertex_at(vertices: &[f32], i: usize) -> Vertex
    ensures { result ≡ vertex_at vertices.now i }
{
    if i < vertices.len() / 9 {
        let point = vec_at(vertices, i * 9);
        let orig1 = vec_at(vertices, i * 9 + 3);
        let orig2 = vec_at(vertices, i * 9 + 6);
        return Vertex {
            point,
            orig1,
            orig2,
        };
    }
    Vertex {
        point: NOWHERE,
        orig1: NOWHERE,
        orig2: NOWHERE,
    }
}

#[tactic(auto, unfolding(epa_polytope::specs::Stores::put_vertex))]
pub fn put_vertex(vertices: &mut [f32], i: usize, v: Vertex)
    ensures { vertices.new ≡ put_vertex vertices.old i v }
{
    if i < vertices.len() / 9 {
        put_vec(vertices, i * 9, v.point);
        put_vec(vertices, i * 9 + 3, v.orig1);
        put_vec(vertices, i * 9 + 6, v.orig2);
    }
}

pub fn normal_of(floats: &[f32], i: usize) -> Vec3
    ensures { result ≡ normal_of floats.now i }
{
    if i < floats.len() / 6 {
        return vec_at(floats, i * 6);
    }
    NOWHERE
}

pub fn weights_of(floats: &[f32], i: usize) -> Vec3
    ensures { result ≡ weights_of floats.now i }
{
    if i < floats.len() / 6 {
        return vec_at(floats, i * 6 + 3);
    }
    NOWHERE
}

#[tactic(auto, unfolding(epa_polytope::specs::Stores::put_made))]
pub fn put_made(floats: &mut [f32], i: usize, m: Made)
    ensures { floats.new ≡ put_made floats.old i m }
{
    if i < floats.len() / 6 {
        put_vec(floats, i * 6, m.normal);
        put_vec(floats, i * 6 + 3, m.weights);
    }
}
