//! Lemmas on tests, options, results, lists, numbers and texts that several crates cite and `std` lacks.
//!
//! It depends on `std` alone. It has no code: all of it is in `proofs/`, a file for each subject.
#![tactic(auto)]
