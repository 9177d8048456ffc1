//! Entries as lines.

use hu_kind::{Entry, NoMemory};
use std::alloc::Global;

/// A line for each entry, as `2 3 #UTIL: 7 #SUP: 2`: its numbers, its utility and its support. Linear time.
pub fn told(alloc: Global, entries: &[Entry]) -> Result<String, NoMemory> {
    let mut text = String::new(alloc);
    for entry in entries {
        for number in entry.key.numbers() {
            text.push_str(&format!(in alloc; "{number} ")?)?;
        }
        text.push_str(&format!(in alloc; "#UTIL: {} #SUP: {}\n", entry.utility, entry.support)?)?;
    }
    Ok(text)
}
