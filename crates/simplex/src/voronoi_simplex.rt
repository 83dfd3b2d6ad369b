// `VoronoiSimplex` of voronoi_simplex3.rs, `new`, and what a simplex is.
ghost use Rattle.std.specs.Prelude.{◌≡◌};
ghost use Rattle.simplex.specs.Simplex.{new_simplex, is_simplex};

use shape::Vertex;

#[repr(C)]
#[derive(Clone, Copy)]
pub struct VoronoiSimplex {
    pub prev_vertices: [usize; 4],
    pub prev_proj: [f32; 3],
    pub prev_dim: usize,
    pub vertices: [Vertex; 4],
    pub proj: [f32; 3],
    pub dim: usize,
}

impl VoronoiSimplex {
    pub fn new() -> VoronoiSimplex
        ensures { result ≡ new_simplex }
    {
        VoronoiSimplex {
            prev_vertices: [0, 1, 2, 3],
            prev_proj: [0.0; 3],
            prev_dim: 0,
            vertices: [Vertex::ZERO; 4],
            proj: [0.0; 3],
            dim: 0,
        }
    }

    // Whether the dimensions and the previous places are at most 3, as those of the Rust's simplices are.
    #[tactic(auto, unfolding(crate::specs::Simplex::is_simplex))]
    pub fn is_simplex(self) -> bool
        ensures { result ≡ is_simplex self }
    {
        let places = self.prev_vertices;
        self.dim <= 3
            && self.prev_dim <= 3
            && places[0] <= 3
            && places[1] <= 3
            && places[2] <= 3
            && places[3] <= 3
    }
}
