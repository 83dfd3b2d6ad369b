// `result` of gjk.rs: the two witness points, weighted over the vertices of a simplex.
#![tactic(auto)]

ghost use Rattle.std.specs.Prelude.{◌≡◌};
ghost use Rattle.std.specs.Float.{binary32};
ghost use Rattle.number.specs.Told.{Told};
ghost use Rattle.witnesses.specs.Witnesses.{weight_of, corner_of, last_of, with_vertex, witnesses_to, result_of, witnesses_number, witnesses_values};

use refusal::WouldPanic;
use shape::Vertex;
use simplex::VoronoiSimplex;
use vector::Vec3;

// The point on each shape.
#[derive(Clone, Copy)]
pub struct Witnesses {
    pub point1: Vec3,
    pub point2: Vec3,
}

// `prev` is the Rust's own flag. The three choices that it makes stay functions of their own: a closure for each would say no less.
// Weight i: the previous one, or the present.
fn weight_of(simplex: VoronoiSimplex, prev: bool, i: usize) -> Result<f32, WouldPanic>
    ensures { result ≡ weight_of simplex prev i }
{
    if prev {
        simplex.prev_proj_coord(i)
    } else {
        simplex.proj_coord(i)
    }
}

// Vertex i: the previous one, or the present.
fn corner_of(simplex: VoronoiSimplex, prev: bool, i: usize) -> Result<Vertex, WouldPanic>
    ensures { result ≡ corner_of simplex prev i }
{
    if prev {
        simplex.prev_point(i)
    } else {
        simplex.point(i)
    }
}

// The last vertex: the previous dimension, or the present.
fn last_of(simplex: VoronoiSimplex, prev: bool) -> usize
    ensures { result ≡ last_of simplex prev }
{
    if prev { simplex.prev_dim } else { simplex.dim }
}

// The witness points with vertex i added by its weight.
fn with_vertex(
    simplex: VoronoiSimplex,
    prev: bool,
    i: usize,
    sum: Witnesses,
) -> Result<Witnesses, WouldPanic>
    ensures { result ≡ with_vertex binary32 simplex prev i (Ok sum) }
{
    let coord = weight_of(simplex, prev, i)?;
    let point = corner_of(simplex, prev, i)?;
    Ok(Witnesses {
        point1: sum.point1 + point.orig1 * coord,
        point2: sum.point2 + point.orig2 * coord,
    })
}

// The first `end` vertices.
fn witnesses_to(simplex: VoronoiSimplex, prev: bool, end: usize) -> Result<Witnesses, WouldPanic>
    ensures { result ≡ witnesses_to binary32 simplex prev end }
{
    let mut sum = Witnesses {
        point1: Vec3::ZERO,
        point2: Vec3::ZERO,
    };
    for i in 0..end {
        sum = with_vertex(simplex, prev, i, sum)?;
    }
    Ok(sum)
}

pub fn result(simplex: VoronoiSimplex, prev: bool) -> Result<Witnesses, WouldPanic>
    ensures answer { result ≡ result_of binary32 simplex prev }
    ensures told { Told witnesses_number witnesses_values result (result_of binary32 simplex prev) }
{
    let last = last_of(simplex, prev);
    if last < 4 {
        return witnesses_to(simplex, prev, last + 1);
    }
    Err(WouldPanic)
}
