// A proposed separating direction, checked in whole numbers (ticket 12): two hulls, each a list of corners with three numbers
// a corner, and a direction. Nothing is written, and nothing has to be known of how the direction was found.
#![tactic(auto)]

ghost use Rattle.std.specs.Prelude.{◌+◌, ◌≤◌, ◌≡◌, true, ◌*ℤ◌, length, [], ◌∷◌, MatchOption, IfSome, IsSome};
ghost use Rattle.certificate.specs.Certificate.{every, is_hull, on_grid, vector_on_grid, corners, product, above, certify, certificate_number};
ghost use Rattle.certificate.specs.Parts.{Bounds};

// A corner or a direction, on the cell's grid.
#[repr(C)]
#[derive(Clone, Copy)]
pub struct GridVector {
    pub x: i32,
    pub y: i32,
    pub z: i32,
}

// Why a direction is declined.
#[derive(Clone, Copy, Debug, PartialEq, Eq)]
pub enum Declined {
    // Refusal 9: a hull has not 1 to 64 corners.
    BadLength,
    // Refusal 10: a number of a hull or of the direction is not from -1,048,576 to 1,048,576.
    OutOfRange,
    // Refusal 11: some two corners are not strictly apart along the direction.
    NotSeparated,
}

// A corner or a direction that is known to be on the grid.
#[derive(Clone, Copy)]
struct OnGrid {
    vector: GridVector,
    ghost in_range: { vector_on_grid vector ≡ true },
}

// A hull's numbers, or those from a corner on, known to be on the grid.
#[derive(Clone, Copy)]
struct GridHull<'a> {
    numbers: &'a [i32],
    ghost in_range: { every on_grid numbers.now ≡ true },
}

// A corner, and the hull without it.
#[derive(Clone, Copy)]
struct Split<'a> {
    corner: OnGrid,
    rest: GridHull<'a>,
}

// Whether n numbers are 1 to 64 corners.
fn is_hull(n: usize) -> bool
    ensures { result ≡ is_hull n }
{
    (n % 3 == 0) & (1 <= n / 3) & (n / 3 <= 64)
}

fn on_grid(n: i32) -> bool
    ensures { result ≡ on_grid n }
{
    (-1_048_576 <= n) & (n <= 1_048_576)
}

fn vector_on_grid(v: GridVector) -> bool
    ensures { result ≡ vector_on_grid v }
{
    on_grid(v.x) & on_grid(v.y) & on_grid(v.z)
}

fn every_on_grid(hull: &[i32]) -> bool
    ensures { result ≡ every on_grid hull.now }
{
    for n in hull {
        if !on_grid(*n) {
            return false;
        }
    }
    true
}

fn times(a: i32, b: i32) -> i64
    ensures { result ≡ a *ℤ b }
{
    i64::from(a) * i64::from(b)
}

// Three products up to 2^40 each. Without the range their sum might not fit.
fn product(direction: OnGrid, corner: OnGrid) -> i64
    ensures { result ≡ product direction.vector corner.vector }
{
    let d = direction.vector;
    let c = corner.vector;
    times(d.x, c.x) + times(d.y, c.y) + times(d.z, c.z)
}

impl<'a> GridHull<'a> {
    // The first corner, and what stands after it. One or two numbers that are left over make none.
    fn split_first(self) -> Option<Split<'a>>
        ensures parts { MatchOption result (corners self.entry.numbers.now ≡ []) (λ s. corners self.entry.numbers.now ≡ s.corner.vector ∷ corners s.rest.numbers.now) }
        ensures fewer { IfSome result (λ s. length s.rest.numbers.now + 3 ≡ length self.entry.numbers.now) }
        ensures there { 3 ≤ length self.entry.numbers.now → IsSome result }
    {
        let [x, y, z, numbers @ ..] = self.numbers else {
            return None;
        };
        let vector = GridVector {
            x: *x,
            y: *y,
            z: *z,
        };
        Some(Split {
            corner: OnGrid { vector },
            rest: GridHull { numbers },
        })
    }

    // The greatest product of a corner: what is above it is above every corner's.
    fn greatest(self, direction: OnGrid) -> i64
        requires { 3 ≤ length self.numbers.now }
        ensures { Bounds direction.vector (corners self.entry.numbers.now) result }
    {
        let first = self.split_first().unwrap();
        let mut top = product(direction, first.corner);
        let mut left = first.rest;
        while let Some(split) = left.split_first() {
            top = top.max(product(direction, split.corner));
            left = split.rest;
        }
        top
    }

    // Whether every corner's product is above n.
    fn every_above(self, direction: OnGrid, n: i64) -> bool
        ensures { result ≡ every (above direction.vector n) (corners self.entry.numbers.now) }
    {
        let mut left = self;
        while let Some(split) = left.split_first() {
            if product(direction, split.corner) <= n {
                return false;
            }
            left = split.rest;
        }
        true
    }
}

// The lengths are asked first, then the ranges, then the products.
pub fn certify(first: &[i32], second: &[i32], direction: GridVector) -> Result<(), Declined>
    ensures answer { result ≡ certify first.now second.now direction }
    ensures number { certificate_number result ≡ certificate_number (certify first.now second.now direction) }
{
    if !(is_hull(first.len()) & is_hull(second.len())) {
        return Err(Declined::BadLength);
    }
    if !(every_on_grid(first) & every_on_grid(second) & vector_on_grid(direction)) {
        return Err(Declined::OutOfRange);
    }
    let along = OnGrid { vector: direction };
    let below = GridHull { numbers: first };
    let beyond = GridHull { numbers: second };
    if beyond.every_above(along, below.greatest(along)) {
        Ok(())
    } else {
        Err(Declined::NotSeparated)
    }
}
