// Case files, written: numbers and records, as the crate `casefile` reads them.
// What each function leaves and answers is a definition of that crate: Numbers.antt and Records.antt.
#![tactic(auto)]

mod numbers;
mod records;

pub use numbers::write_number;
pub use records::write_case;
