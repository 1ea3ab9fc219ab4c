//! Tests of the index and the copy: what no clause of theirs says.
#![tactic(auto)]

#[cfg(test)]
mod copies;
#[cfg(test)]
mod indexes;
#[cfg(test)]
mod parts;
