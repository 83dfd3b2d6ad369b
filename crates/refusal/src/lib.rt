// What a call is refused with, where crates hand it on to one another: document 01's refusals 2 and 3.
#![tactic(auto)]

// Refusal 2: the Rust would panic at this input, or the simplex given is none.
#[derive(Clone, Copy, Debug, PartialEq, Eq)]
pub struct WouldPanic;

// Refusal 3: a place is needed in a lent store, and its number is the store's length.
#[derive(Clone, Copy, Debug, PartialEq, Eq)]
pub struct NoRoom;
