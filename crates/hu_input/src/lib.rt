//! From files to records: the reading room of hupm.
//!
//! [`read_files`] reads named files in order, each once to its end and in pieces, cuts them into lines (hu_lines), reads
//! each line by a [`Format`] (hu_trans, hu_seq), and gives a base of records for each file (hu_base). The first line that
//! is refused stops it before any further read, with its [`Reason`]. What the files say is a definition over their
//! contents, in `specs/Input.antt`. [`Part`] and [`tell`] put a line on an error stream part by part.
#![tactic(auto)]

mod content;
mod format;
mod input;
mod intake;
mod part;
mod reason;

pub use content::read_content;
pub use format::{Format, Sequences, Transactions};
pub use input::{InputStop, read_files};
pub use part::{Part, tell};
pub use reason::{Parts, Reason};
