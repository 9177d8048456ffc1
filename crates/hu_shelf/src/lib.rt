//! Stores of records that last from one run to the next, each as one text under a name.
//!
//! [`Shelf`] makes, finds and grows a store, and gives the answer of its records. A [`Keeper`] has the texts:
//! [`MemoryKeeper`] in memory, for tests, and [`DiskKeeper`] in files. What the text of a store is, and which store a
//! text tells, stands in `specs/Store.antt`; `specs/Keeper.antt` has what a keeper is seen as, and `specs/Shelf.antt` why
//! calls are refused. That texts and stores tell each other is proved, by the functions whose names begin with `law`.
//! Begin with [`Shelf`]. The crate stands on hu_kept, hu_trans and hu_io.
#![tactic(auto)]

mod content;
mod cut;
mod disk_keeper;
mod fault;
mod keeper;
mod laws;
mod memory_keeper;
mod records;
mod settings;
mod shelf;

pub use disk_keeper::DiskKeeper;
pub use fault::ShelfFault;
pub use keeper::{KeepFault, Keeper};
pub use laws::{law_of_stores, law_of_texts, unplanned_keepers_never_fail};
pub use memory_keeper::MemoryKeeper;
pub use shelf::Shelf;
