//! The top calls of hupm: [`run`] reads the words, does their job over the named files, writes its text and tells of
//! what stops it, and [`run_all`] does the same, and keeps stores where the first word is `shelf`.
//!
//! What it promises is the whole of the program, and stands in `specs/`: `Job` says what words ask for
//! ([`read_words`]), `Ending` what a job comes to over the contents of its files, `Run` what a run makes of its
//! streams by that. A job is a file of `jobs/`, which answers with its text or with what stops it. What is said of stores stands in the
//! files of `specs/` that begin with `Shelf`, and what is done with them under `shelf/`. The crate stands on
//! hu_input, which reads, on hu_mine, which mines, on hu_certify and hu_proof, which make and check certificates, and on
//! hu_report, hu_average and hu_drill, which write, and on hu_shelf, which keeps stores.
#![tactic(auto)]

mod answer;
mod denial;
mod jobs;
pub mod laws;
pub mod shelf;
mod stop;
mod top;
mod words;

pub use hu_input::Reason;
pub use hu_mine::Engine;
pub use shelf::{ShelfJob, StoreFault, read_shelf_words, run_all};
pub use top::run;
pub use words::{Job, WordFault, read_words};
