//! Tests of the parts that need a runtime: mailboxes between threads, and files of the system. What the other parts answer stands
//! as rows of `worked_answers` and `worked_growth`.
#![tactic(auto)]

#[cfg(test)]
mod files;
#[cfg(test)]
mod mail;
#[cfg(test)]
mod words;
#[cfg(test)]
mod workload;
