//! Trials of the other crates: the public calls with ample memory, by themselves or as the steps of a search, each generic one at a
//! concrete type, the laws each called once, and worked rows as tables, most of them on the small bases of hu_sample.
//!
//! A module tries the crate of its name. The trials stand apart from what they try, since a crate with tests is proved a second
//! time for them; those of hu_kept, which call what isn't public, stand there, and those of whole runs in hupm.
#![tactic(auto)]

#[cfg(test)]
mod answer;
#[cfg(test)]
mod average;
#[cfg(test)]
mod base;
#[cfg(test)]
mod builders;
#[cfg(test)]
mod certify;
#[cfg(test)]
mod chain;
#[cfg(test)]
mod closed;
#[cfg(test)]
mod collect;
#[cfg(test)]
mod drill;
#[cfg(test)]
mod input;
#[cfg(test)]
mod io;
#[cfg(test)]
mod kind;
#[cfg(test)]
mod lengths;
#[cfg(test)]
mod lines;
#[cfg(test)]
mod list;
#[cfg(test)]
mod plain;
#[cfg(test)]
mod project;
#[cfg(test)]
mod proof;
#[cfg(test)]
mod raise;
#[cfg(test)]
mod report;
#[cfg(test)]
mod rows;
#[cfg(test)]
mod search;
#[cfg(test)]
mod seq;
#[cfg(test)]
mod shelf;
#[cfg(test)]
mod span;
#[cfg(test)]
mod text;
#[cfg(test)]
mod totals;
#[cfg(test)]
mod trans;
