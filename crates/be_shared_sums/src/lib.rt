//! Rules of shared tables whose words are sums: of numbers that the views of their seats have, where each view has a share.
//!
//! It has definitions and lemmas alone, and no code. Its one definition is `Tallied` (specs/Tallied): the shares of all views
//! sum to their number, each of their numbers sums to what the words say, and each view fits. The lemmas (proofs/Tallies) say
//! that a step, a split and a join keep it (`keeps_step`, `keeps_split`, `keeps_join`), that a sum is at most what is allowed
//! for all shares (`total_within`), and that a view with every share has each sum whole (`whole`). It stands on atomic_table,
//! whose tables these are.
#![tactic(auto)]
