// Figures over a whole test campaign (ticket 11): sums over the outcomes of a case file's records, the turn that reads a
// record and counts it, and the lines that tell them. What each public function does is a definition of specs/.
#![tactic(auto)]

mod sums;
mod text;
mod turn;

pub use sums::{Figures, Letters, counted, none};
pub use text::{Stop, write_campaign};
pub use turn::{Counted, figures_next};
