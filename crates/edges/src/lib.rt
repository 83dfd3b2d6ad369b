// The silhouette's store as document 01 has it, a list of records, each a face number and a corner, lent as a slice. What
// works on one row of numbers, two places an edge, is handed the records by value, and its row is written back over them.
#![tactic(auto)]

ghost use Rattle.std.specs.Prelude.{◌≡◌, min};
ghost use Rattle.edges.specs.Edges.{row_of, published};

#[repr(C)]
#[derive(Clone, Copy)]
pub struct Edge {
    pub face: usize,
    pub corner: usize,
}

// The first `n` records of a store, each a pair of places. A pass never records more than 206.
// The length stands beside the places, since `row_of` and `publish` hand them over by value.
#[derive(Clone, Copy)]
pub struct Row {
    pub pairs: [usize; 412],
    pub n: usize,
}

// How many of `n` records, of which a row holds 206 at most, are written where there is room for `len`.
fn written(n: usize, len: usize) -> usize
    ensures { result ≡ min (min n 206) len }
{
    n.min(206).min(len)
}

// The store's first records by value, at most 206.
pub fn row_of(edges: &[Edge]) -> Row
    ensures { result ≡ row_of edges.now }
{
    let mut pairs = [0; 412];
    let n = written(edges.len(), 206);
    let first = &edges[..n];
    for (i, e) in first.iter().enumerate() {
        pairs[i * 2] = e.face;
        pairs[i * 2 + 1] = e.corner;
    }
    Row { pairs, n }
}

// The row's records over the store's, as far as it goes; places beyond stay.
pub fn publish(edges: &mut [Edge], row: Row)
    ensures { edges.new ≡ published row edges.old }
{
    let pairs = row.pairs;
    let n = written(row.n, edges.len());
    let first = &mut edges[..n];
    for (i, e) in first.iter_mut().enumerate() {
        *e = Edge {
            face: pairs[i * 2],
            corner: pairs[i * 2 + 1],
        };
    }
}
