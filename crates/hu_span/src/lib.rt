//! The engine for sequences over utility chains. It answers as the plain one does, and leaves out what grows from a
//! pattern where no such pattern can change what the collector holds.
//!
//! [`mine`] searches by the two kinds of growth. A level of the search is a pattern with its places in all records, which
//! are gathered as marks: `specs/Mark.antt` says what marks are, `specs/Gather.antt` which a pattern grows by,
//! `specs/Trail.antt` where the cells behind each stand and how they are walked over, `specs/Links.antt` how those of an item
//! are found among them, and `specs/Tally.antt` what they tell of its utility, its support and its bound. What children are
//! stands in `specs/Child.antt`, which of them are entered in `specs/Branch.antt`, and how a search does so in
//! `specs/Search.antt`. At each level items are dropped by which no pattern reaches the floor: `specs/Cut.antt` says which,
//! `specs/Kept.antt` what is left of the records, and `specs/Thin.antt` how it is copied and summed. The bounds, the places of
//! a grown pattern, and that every pattern is reached, are those of hu_chain. The crate stands on hu_kind, hu_base, hu_collect
//! and hu_chain.
#![tactic(auto)]

mod child;
mod cut;
mod gather;
mod kept;
mod links;
mod mark;
mod rows;
mod scan;
mod search;
mod step;
mod tally;
mod thin;
mod trail;
mod walk;

pub use search::mine;
