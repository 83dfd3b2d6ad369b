// The known cases of document 01 that are proved: `specs/Known.antt` has them as one table, and
// `proofs/Table.antt` the proof that every row of it holds of the definitions. No code of its own.
#![tactic(auto)]
