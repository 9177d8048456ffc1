//! Collectors: they are offered entries in any order, and keep those that are wanted in the one order, each once, all
//! of them or the first k. Their floor tells a search which utility an entry must have to change anything.
//!
//! [`Collect`] is what a search is written over; [`All`] and [`Top`] are the collectors to begin with. What a collector
//! makes of entries stands in `specs/Rule.antt`, its laws in `specs/Laws.antt` and the functions of this crate whose
//! names begin with `law`. The crate stands on hu_kind alone.
#![tactic(auto)]

mod all;
mod collect;
mod gate;
mod laws;
mod limited;
mod top;

pub use all::All;
pub use collect::Collect;
pub use gate::{Gate, NoGate};
pub use laws::{law_of_floors, law_of_low_entries, law_of_members, law_of_turns};
pub use limited::Limited;
pub use top::Top;
