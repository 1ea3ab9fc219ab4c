//! Tests alone: rows of input and output, worked by hand from the rules, through the program's one call.
#![tactic(auto)]

#[cfg(test)]
mod costs;
#[cfg(test)]
mod covers;
#[cfg(test)]
mod dumps;
#[cfg(test)]
mod faults;
#[cfg(test)]
mod full;
#[cfg(test)]
mod generated;
#[cfg(test)]
mod limits;
#[cfg(test)]
mod loads;
#[cfg(test)]
mod plainly;
#[cfg(test)]
mod refusals;
#[cfg(test)]
mod rows;
#[cfg(test)]
mod setting;
#[cfg(test)]
mod size;
