//! The types that every crate of hupm shares, and the definitions of the whole answer.
//!
//! A [`Record`] is a transaction and a [`SeqRecord`] a sequence; both keep their rules and their absolute sum. An [`Entry`] is a
//! pattern of an answer: a [`Key`], its utility and its support, in the one order. [`read_number`] and [`read_signed`] read what
//! numbers a text may say, and [`Tokens`] its tokens. What an answer is stands in `specs/Answer.antt`, over records as lists.
#![tactic(auto)]

mod cells;
mod entry;
mod item;
mod key;
pub mod laws;
mod memory;
mod number;
mod reading;
mod record;
mod sequence;
mod task;
mod token;
mod value;

pub use cells::{cells_below, ordered_cells};
pub use entry::Entry;
pub use item::{Cell, Item};
pub use key::Key;
pub use memory::NoMemory;
pub use number::{NumberFault, read_number, read_signed};
pub use reading::{first_number, first_signed};
pub use record::{Absolute, Record};
pub use sequence::{Element, SeqRecord};
pub use task::Task;
pub use token::Tokens;
pub use value::{Valued, gain_of, positive_part};
