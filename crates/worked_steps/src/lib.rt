//! Tests of steps that change and reshape a tree: what no clause of the calls says.
#![tactic(auto)]

#[cfg(test)]
mod as_steps;
#[cfg(test)]
mod beside;
#[cfg(test)]
mod by_ways;
#[cfg(test)]
mod looks;
#[cfg(test)]
mod moves;
#[cfg(test)]
mod plan;
#[cfg(test)]
mod refused;
#[cfg(test)]
mod remove;
#[cfg(test)]
mod rows;
#[cfg(test)]
mod steps;
