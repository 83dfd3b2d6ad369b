// What the simplex becomes at a location: the second half of `project_origin_and_reduce`. First a plan, of small values, of what the location
// asks; then the plan is carried out in place, on one copy of the simplex: steps that hand on whole simplices would copy it at each. What is
// private here is called with a location that the simplex has: `whole_plan` has tested it.
#![tactic(auto, unfolding(crate::specs::Reduction::apply_location, crate::specs::Reduction::has_location, crate::specs::Reduction::reduce_to, crate::specs::Reduction::reduce_segment, crate::specs::Reduction::reduce_triangle, crate::specs::Reduction::triangle_edge, crate::specs::Reduction::reduce_tetrahedron, crate::specs::Reduction::tetrahedron_face, crate::specs::Reduction::edge_first, crate::specs::Reduction::to_first, crate::specs::Reduction::to_vertex, crate::specs::Reduction::to_edge, crate::specs::Reduction::overwrite_in, crate::specs::Reduction::place_in, simplex::specs::Simplex::swap_in, crate::specs::Plan::carried_out, crate::specs::Plan::moved_by))]

ghost use Rattle.std.specs.Prelude.{◌≡◌, true, ◌≤◌};
ghost use Rattle.number.specs.Told.{Told, no_values};
ghost use Rattle.reduction.specs.Reduction.{reduce_segment, triangle_edge, reduce_triangle};
ghost use Rattle.reduction.specs.Reduction.{tetrahedron_edge, tetrahedron_face, reduce_tetrahedron};
ghost use Rattle.reduction.specs.Reduction.{has_location, reduce_to, apply_location, application_number};
ghost use Rattle.reduction.specs.Plan.{Places, carried_out, planned, vertex_plan, edge_plan, EdgeFirst, FacePlan, Plans, Answers};

use crate::location::Location;
use simplex::VoronoiSimplex;

// Why a location is not taken: refusal 7, the simplex has no such location; refusal 2, the value is no simplex.
#[derive(Clone, Copy, Debug, PartialEq, Eq)]
pub enum ApplyError {
    NoSuchLocation,
    NoSimplex,
}

// What is refused hands the simplex back as it came in.
#[derive(Clone, Copy)]
pub struct Applied {
    pub simplex: VoronoiSimplex,
    pub outcome: Result<(), ApplyError>,
}

// Which vertices move: none; two change places; 0 with 2 and 1 with 3; or the last is written over one.
#[derive(Clone, Copy)]
enum Moves {
    Stay,
    Swap(usize, usize),
    SwapBoth,
    Overwrite(usize),
}

// What a location asks of a simplex: which vertices move, and the weights and the dimension that are left.
#[derive(Clone, Copy)]
struct Plan {
    moves: Moves,
    proj: [f32; 3],
    dim: usize,
}

fn planned(moves: Moves, proj: [f32; 3], dim: usize) -> Plan
    ensures { result ≡ planned moves proj dim }
{
    Plan { moves, proj, dim }
}

// All that a plan reads of a simplex: its weights and its dimension.
#[derive(Clone, Copy)]
struct Weights {
    proj: [f32; 3],
    dim: usize,
}

impl Weights {
    // These vertices move, and the weights and the dimension stay.
    fn moved(self, moves: Moves) -> Plan
        ensures { result ≡ planned moves self.proj self.dim }
    {
        planned(moves, self.proj, self.dim)
    }

    // The first vertex alone is left, with weight 1. The other weights stay old.
    fn vertex_plan(self, moves: Moves) -> Plan
        ensures { result ≡ vertex_plan moves self.proj }
    {
        let mut proj = self.proj;
        proj[0] = 1.0;
        planned(moves, proj, 0)
    }

    // The first two vertices get the weights u and v. The third weight stays old.
    fn edge_plan(self, moves: Moves, u: f32, v: f32, dim: usize) -> Plan
        ensures { result ≡ edge_plan moves self.proj u v dim }
    {
        let mut weights = self.proj;
        weights[0] = u;
        weights[1] = v;
        planned(moves, weights, dim)
    }

    fn segment_plan(self, location: Location) -> Plan
        ensures { Plans self.proj self.dim (λ s. reduce_segment s location) result }
    {
        match location {
            Location::OnVertex(0) => self.vertex_plan(Moves::Stay),
            Location::OnVertex(_) => self.vertex_plan(Moves::Swap(0, 1)),
            Location::OnEdge(_, u, v) => self.edge_plan(Moves::Stay, u, v, self.dim),
            Location::OnFace(_, _, _, _) => self.moved(Moves::Stay),
            Location::OnSolid => self.moved(Moves::Stay),
        }
    }

    // Edge 1, from b to c, leaves c and b with the weights exchanged.
    fn triangle_edge(self, i: u32, u: f32, v: f32) -> Plan
        ensures { Plans self.proj self.dim (λ s. triangle_edge s i u v) result }
    {
        match i {
            0 => self.edge_plan(Moves::Stay, u, v, 1),
            1 => self.edge_plan(Moves::Swap(0, 2), v, u, 1),
            _ => self.edge_plan(Moves::Swap(1, 2), u, v, 1),
        }
    }

    fn triangle_plan(self, location: Location) -> Plan
        requires { has_location 2 location ≡ true }
        ensures { Plans self.proj self.dim (λ s. reduce_triangle s location) result }
    {
        match location {
            Location::OnVertex(i) => self.vertex_plan(Moves::Swap(0, i as usize)),
            Location::OnEdge(i, u, v) => self.triangle_edge(i, u, v),
            Location::OnFace(_, u, v, w) => planned(Moves::Stay, [u, v, w], self.dim),
            Location::OnSolid => self.moved(Moves::Stay),
        }
    }

    // The swap of bc and of bd turns the edge round, and the weights with it.
    fn tetrahedron_edge(self, i: u32, u: f32, v: f32) -> Plan
        ensures { Plans self.proj self.dim (λ s. tetrahedron_edge s i u v) result }
    {
        let moves = edge_first(i);
        match i {
            3 | 4 => self.edge_plan(moves, v, u, 1),
            _ => self.edge_plan(moves, u, v, 1),
        }
    }

    fn tetrahedron_plan(self, location: Location) -> Plan
        requires { has_location 3 location ≡ true }
        ensures { Plans self.proj self.dim (λ s. reduce_tetrahedron s location) result }
    {
        match location {
            Location::OnVertex(i) => self.vertex_plan(Moves::Swap(0, i as usize)),
            Location::OnEdge(i, u, v) => self.tetrahedron_edge(i, u, v),
            Location::OnFace(i, u, v, w) => tetrahedron_face(i, u, v, w),
            Location::OnSolid => self.moved(Moves::Stay), // dimension and weights stay
        }
    }

    // By the dimension.
    fn plan_of(self, location: Location) -> Plan
        requires { (self.dim ≤ 3) × (has_location self.dim location ≡ true) }
        ensures { Plans self.proj self.dim (λ s. reduce_to s location) result }
    {
        match self.dim {
            0 => self.vertex_plan(Moves::Stay),
            1 => self.segment_plan(location),
            2 => self.triangle_plan(location),
            _ => self.tetrahedron_plan(location),
        }
    }
}

// The ends of edge i (ab, ac, ad, bc, bd, cd) come first.
fn edge_first(i: u32) -> Moves
    ensures { EdgeFirst i result }
{
    match i {
        0 => Moves::Stay,
        1 => Moves::Swap(1, 2),
        2 => Moves::Swap(1, 3),
        3 => Moves::Swap(0, 2),
        4 => Moves::Swap(0, 3),
        _ => Moves::SwapBoth,
    }
}

// d is written over the corner that face i (abc, abd, acd, bcd) has not got, and the weights follow.
fn tetrahedron_face(i: u32, u: f32, v: f32, w: f32) -> Plan
    ensures { FacePlan i u v w result }
{
    match i {
        0 => planned(Moves::Stay, [u, v, w], 2),
        1 => planned(Moves::Overwrite(2), [u, v, w], 2),
        2 => planned(Moves::Overwrite(1), [u, w, v], 2),
        _ => planned(Moves::Overwrite(0), [w, u, v], 2),
    }
}

// Whether a simplex of dimension dim has the location.
fn has_location(dim: usize, location: Location) -> bool
    ensures { result ≡ has_location dim location }
{
    match location {
        Location::OnVertex(i) => i as usize <= dim,
        Location::OnEdge(i, _, _) => match dim {
            1 => i < 1,
            2 => i < 3,
            3 => i < 6,
            _ => false,
        },
        Location::OnFace(i, _, _, _) => match dim {
            2 => true,
            3 => i < 4,
            _ => false,
        },
        Location::OnSolid => dim == 2 || dim == 3,
    }
}

// Whether the value is a simplex is tested before all else.
fn whole_plan(s: VoronoiSimplex, location: Location) -> Result<Plan, ApplyError>
    ensures { Answers s (apply_location s location) result }
{
    if !s.is_simplex() {
        return Err(ApplyError::NoSimplex);
    }
    if !has_location(s.dim, location) {
        return Err(ApplyError::NoSuchLocation);
    }
    let VoronoiSimplex { proj, dim, .. } = s;
    Ok(Weights { proj, dim }.plan_of(location))
}

// The plan carried out. Where the last vertex is written over another the Rust does not swap, so `prev_point` shows the new vertex.
fn rearranged(s: VoronoiSimplex, plan: Plan) -> VoronoiSimplex
    requires { Places plan.moves }
    ensures { result ≡ carried_out s plan }
{
    let mut t = s;
    match plan.moves {
        Moves::Stay => {}
        Moves::Swap(i, j) => {
            t.vertices.swap(i, j);
            t.prev_vertices.swap(i, j);
        }
        Moves::SwapBoth => {
            t.vertices.swap(0, 2);
            t.vertices.swap(1, 3);
            t.prev_vertices.swap(0, 2);
            t.prev_vertices.swap(1, 3);
        }
        Moves::Overwrite(i) => t.vertices[i] = t.vertices[3],
    }
    let proj = plan.proj;
    t.proj = proj;
    t.dim = plan.dim;
    t
}

// The simplex reduced to a location.
pub fn apply_location(simplex: VoronoiSimplex, location: Location) -> Applied
    ensures answer { result ≡ apply_location simplex location }
    ensures told { Told application_number no_values result.outcome (apply_location simplex location).outcome }
{
    match whole_plan(simplex, location) {
        Ok(plan) => Applied {
            simplex: rearranged(simplex, plan),
            outcome: Ok(()),
        },
        Err(refusal) => Applied {
            simplex,
            outcome: Err(refusal),
        },
    }
}
