//! The text of an answer.
//!
//! [`write_entries`] puts a line for each entry to a sink of hu_io, by a [`Page`] of bytes that wait. It takes no memory,
//! and puts some 4,096 bytes at a time. Where the sink fails, a proper front of the text has gone out.
#![tactic(auto)]

mod page;
mod text;

pub use page::Page;
pub use text::{push_key, write_entries};
