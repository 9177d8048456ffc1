//! The utility chain of a pattern in a sequence record: the cells at which the pattern ends, with what it earns there
//! at best and what is left after it.
//!
//! Begin with [`Chain::start`], the chain of a pattern of one item, and grow it by [`Chain::into_last`] and
//! [`Chain::after_last`]; a chain answers the utility of its pattern and bounds what the pattern can grow to. The
//! definitions stand in `specs/Place.antt` and `specs/Bound.antt`, how patterns grow in `specs/Grown.antt`. What a
//! search over many chains needs is proved in `proofs/`: where a grown pattern occurs (`Growing.antt`), that every
//! pattern is reached (`Reached.antt`), and what the bounds hold of (`Bounds.antt`). The crate stands on hu_kind.
#![tactic(auto)]

mod chain;
mod place;
mod walk;

pub use chain::{Chain, Growth};
pub use place::Place;
