//! Itemsets of high average utility: those that earn enough for each of their items.
//!
//! [`mine_plain`] tries every itemset, and [`mine`] searches utility lists and leaves out what [`bound`] shows to be too low; both
//! give the same entries in the order [`cmp_average`], which [`write_averages`] writes. The order stands in `specs/Order.antt`, the
//! answer in `specs/Answer.antt`, what holds of it in `specs/Laws.antt` ([`law_of_average_answers`]), its text in `specs/Text.antt`, the
//! bound in `specs/Bound.antt`. The search keeps utility lists as tails, `specs/Tails.antt`, from which it walks on in the records. The crate stands on hu_kind,
//! hu_io, hu_base, hu_collect, hu_totals, hu_search, hu_list, hu_plain and hu_report, its proofs on hu_answer and hu_lengths too.
//! After Hong, Lee and Wang (2009).
#![tactic(auto)]

mod best;
mod bounds;
mod by_average;
mod children;
mod grow;
mod laws;
mod order;
mod plain;
mod search;
mod tail;
mod text;
mod totals;

pub use bounds::bound;
pub use laws::law_of_average_answers;
pub use order::{cmp_average, reaches};
pub use plain::mine_plain;
pub use search::mine;
pub use text::write_averages;
