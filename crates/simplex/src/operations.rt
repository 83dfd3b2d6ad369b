// The public operations of voronoi_simplex3.rs. Each tests first that the value is a simplex; refusal 2
// hands it back as it came in.
ghost use Rattle.std.specs.Prelude.{◌≡◌};
ghost use Rattle.std.specs.Float.{binary32};
ghost use Rattle.number.specs.Told.{Told, no_values};
ghost use Rattle.simplex.specs.Operations.{swap_simplex, reset_simplex, add_point, modify_pnts};
ghost use Rattle.simplex.specs.Operations.{proj_coord, corner_point, prev_proj_coord, prev_point};
ghost use Rattle.simplex.specs.Operations.{contains_point, dimension_of, prev_dimension_of, max_sq_len};
ghost use Rattle.simplex.specs.Operations.{altered_number, answer_number, answer_value, scalar_number, scalar_value, dimension_number, dimension_value, corner_number, corner_value};

use crate::steps;
use crate::voronoi_simplex::VoronoiSimplex;
use refusal::WouldPanic;
use shape::Vertex;
use vector::Vec3;

// Of `swap`, `reset` and `modify_pnts`: what is refused hands the simplex back as it came in.
#[derive(Clone, Copy)]
pub struct Altered {
    pub simplex: VoronoiSimplex,
    pub outcome: Result<(), WouldPanic>,
}

// Of `add_point`: whether the vertex was added; what is refused hands the simplex back as it came in. Not one generic struct with
// `Altered`: their fields say what each hands back, as the definitions do.
#[derive(Clone, Copy)]
pub struct Added {
    pub simplex: VoronoiSimplex,
    pub answer: Result<bool, WouldPanic>,
}

impl VoronoiSimplex {
    // Two vertices change places.
    #[tactic(auto, unfolding(crate::specs::Operations::swap_simplex))]
    pub fn swap(self, i1: usize, i2: usize) -> Altered
        ensures answer { result ≡ swap_simplex self i1 i2 }
        ensures told { Told altered_number no_values result.outcome (swap_simplex self i1 i2).outcome }
    {
        if self.is_simplex() && i1 < 4 && i2 < 4 {
            let simplex = steps::swap_in(self, i1, i2);
            return Altered {
                simplex,
                outcome: Ok(()),
            };
        }
        Altered {
            simplex: self,
            outcome: Err(WouldPanic),
        }
    }

    // The simplex becomes the one vertex.
    #[tactic(auto, unfolding(crate::specs::Operations::reset_simplex))]
    pub fn reset(self, pt: Vertex) -> Altered
        ensures answer { result ≡ reset_simplex self pt }
        ensures told { Told altered_number no_values result.outcome (reset_simplex self pt).outcome }
    {
        if self.is_simplex() {
            let simplex = steps::reset_in(self, pt);
            return Altered {
                simplex,
                outcome: Ok(()),
            };
        }
        Altered {
            simplex: self,
            outcome: Err(WouldPanic),
        }
    }

    // Adds a vertex, and answers no where it would add nothing. Either way the previous dimension, weights
    // and places are kept first. Dimension 3 is refused.
    #[tactic(auto, unfolding(crate::specs::Operations::add_point))]
    pub fn add_point(self, pt: Vertex) -> Added
        ensures answer { result ≡ add_point binary32 self pt }
        ensures told { Told answer_number answer_value result.answer (add_point binary32 self pt).answer }
    {
        if self.is_simplex() && self.dim < 3 {
            let saved = steps::saved_in(self);
            if steps::near_simplex(self, pt) {
                return Added {
                    simplex: saved,
                    answer: Ok(false),
                };
            }
            let simplex = steps::grown_in(saved, pt);
            return Added {
                simplex,
                answer: Ok(true),
            };
        }
        Added {
            simplex: self,
            answer: Err(WouldPanic),
        }
    }

    // Weight i of the last projection: there are three, though there may be four vertices.
    #[tactic(auto, unfolding(crate::specs::Operations::proj_coord))]
    pub fn proj_coord(self, i: usize) -> Result<f32, WouldPanic>
        ensures answer { result ≡ proj_coord self i }
        ensures told { Told scalar_number scalar_value result (proj_coord self i) }
    {
        if self.is_simplex() && i <= self.dim && i < 3 {
            return Ok(self.proj[i]);
        }
        Err(WouldPanic)
    }

    // Vertex i.
    #[tactic(auto, unfolding(crate::specs::Operations::corner_point))]
    pub fn point(self, i: usize) -> Result<Vertex, WouldPanic>
        ensures answer { result ≡ corner_point self i }
        ensures told { Told corner_number corner_value result (corner_point self i) }
    {
        if self.is_simplex() && i <= self.dim {
            let v = self.vertices[i];
            return Ok(v);
        }
        Err(WouldPanic)
    }

    // Weight i before the last `add_point`.
    #[tactic(auto, unfolding(crate::specs::Operations::prev_proj_coord))]
    pub fn prev_proj_coord(self, i: usize) -> Result<f32, WouldPanic>
        ensures answer { result ≡ prev_proj_coord self i }
        ensures told { Told scalar_number scalar_value result (prev_proj_coord self i) }
    {
        if self.is_simplex() && i <= self.prev_dim && i < 3 {
            return Ok(self.prev_proj[i]);
        }
        Err(WouldPanic)
    }

    // Vertex i before the last `add_point`, wherever a reduction has swapped it since. Where a face reduction has
    // written the last vertex over its place, the new vertex shows.
    #[tactic(auto, unfolding(crate::specs::Operations::prev_point))]
    pub fn prev_point(self, i: usize) -> Result<Vertex, WouldPanic>
        ensures answer { result ≡ prev_point self i }
        ensures told { Told corner_number corner_value result (prev_point self i) }
    {
        if self.is_simplex() && i <= self.prev_dim {
            let place = self.prev_vertices[i];
            let v = self.vertices[place];
            return Ok(v);
        }
        Err(WouldPanic)
    }

    // Whether a vertex of the simplex has just this point.
    #[tactic(auto, unfolding(crate::specs::Operations::contains_point))]
    pub fn contains_point(self, pt: Vec3) -> Result<bool, WouldPanic>
        ensures answer { result ≡ contains_point self pt }
        ensures told { Told answer_number answer_value result (contains_point self pt) }
    {
        if self.is_simplex() {
            return Ok(steps::has_point(&self.vertices[..=self.dim], pt));
        }
        Err(WouldPanic)
    }

    #[tactic(auto, unfolding(crate::specs::Operations::dimension_of))]
    pub fn dimension(self) -> Result<usize, WouldPanic>
        ensures answer { result ≡ dimension_of self }
        ensures told { Told dimension_number dimension_value result (dimension_of self) }
    {
        if self.is_simplex() {
            return Ok(self.dim);
        }
        Err(WouldPanic)
    }

    #[tactic(auto, unfolding(crate::specs::Operations::prev_dimension_of))]
    pub fn prev_dimension(self) -> Result<usize, WouldPanic>
        ensures answer { result ≡ prev_dimension_of self }
        ensures told { Told dimension_number dimension_value result (prev_dimension_of self) }
    {
        if self.is_simplex() {
            return Ok(self.prev_dim);
        }
        Err(WouldPanic)
    }

    // The greatest squared length of a vertex's point; 0 where none compares greater.
    #[tactic(auto, unfolding(crate::specs::Operations::max_sq_len))]
    pub fn max_sq_len(self) -> Result<f32, WouldPanic>
        ensures answer { result ≡ max_sq_len binary32 self }
        ensures told { Told scalar_number scalar_value result (max_sq_len binary32 self) }
    {
        if self.is_simplex() {
            return Ok(steps::max_sq_len_in(&self.vertices[..=self.dim]));
        }
        Err(WouldPanic)
    }

    // Every vertex is translated by `dir`: the Rust applies a function, and its one caller translates.
    #[tactic(auto, unfolding(crate::specs::Operations::modify_pnts))]
    pub fn modify_pnts(self, dir: Vec3) -> Altered
        ensures answer { result ≡ modify_pnts binary32 self dir }
        ensures told { Told altered_number no_values result.outcome (modify_pnts binary32 self dir).outcome }
    {
        if self.is_simplex() {
            let simplex = steps::translated_in(self, dir);
            return Altered {
                simplex,
                outcome: Ok(()),
            };
        }
        Altered {
            simplex: self,
            outcome: Err(WouldPanic),
        }
    }
}
