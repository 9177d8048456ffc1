//! The plain engines: every pattern that occurs in records is offered to a collector. Nothing is cut, so theirs is the answer
//! that every other engine has to give.
//!
//! [`mine_items`] goes over itemsets. A search extends a prefix over the records that hold it, which it keeps as rows;
//! what rows and prefixes earn stands in `specs/Row.antt`. [`mine_sequences`] goes over sequences in the same way. Of a
//! record it keeps the best occurrence that ends in each itemset; what these earn and how they grow stands in
//! `specs/Place.antt` and `specs/Growth.antt`.
//!
//! The crate stands on hu_kind for records and patterns, on hu_base for records under one sum, and on hu_collect for what
//! takes the patterns. A caller adds records to a `Base`, makes a collector, as `All` or `Top`, calls an engine with both, and
//! takes the entries out of the collector; after want of memory the collector has been offered some of the patterns.
//!
//! The engines take as long as the patterns are many, up to 2^n for a record of n items, and are meant for short records.
//! In what order they offer patterns isn't promised, nor that they don't offer one that a collector would leave out.
#![tactic(auto)]

mod grown;
mod items;
mod places;
mod row;
mod sequences;

pub use items::mine_items;
pub use sequences::mine_sequences;
