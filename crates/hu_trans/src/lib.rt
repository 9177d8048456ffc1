//! Transaction lines: [`read_record`] gives the record of a line or the first fault in the order of [`Fault`], and
//! [`write_record`] gives the one line in which a record is written. Both stand on the types and numbers of `hu_kind`.
//! What a line says is defined in `specs/Reading.antt`.
#![tactic(auto)]

mod checks;
mod fault;
mod judge;
mod numbers;
mod parts;
mod read;
mod sums;
mod write;

pub use fault::Fault;
pub use read::read_record;
pub use write::write_record;
