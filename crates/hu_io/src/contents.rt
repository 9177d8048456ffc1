//! The contents of files in memory, by name.

ghost use Rattle.std.specs.Prelude.{◌≡◌, ℕ, ◌-◌, [], min, length, take, drop, OnOk, OnErr};
ghost use Rattle.std.specs.Option.{option_copied};
ghost use Rattle.hu_io.specs.Files.{Adds, content_in};

use hu_kind::NoMemory;
use std::alloc::Global;
use std::collections::BTreeMap;
use std::marker::Model;

/// The bytes of each name that was added.
#[derive(Drop)]
pub(crate) struct Contents {
    alloc: Global,
    by_name: BTreeMap<String, Vec<u8>>,
}

impl Model for Contents {
    ghost use Rattle.std.specs.Prelude.{List, ℕ, map};
    ghost use Rattle.std.specs.String.{string_bytes};

    ghost Value = { List (List ℕ × List ℕ) };

    ghost view = { λ c. map (λ e. (string_bytes e.0, e.1.items)) c.by_name.entries };
}

impl Contents {
    /// No name.
    pub(crate) fn new(alloc: Global) -> Contents
        ensures { result ≡ [] }
    {
        Contents {
            alloc,
            by_name: BTreeMap::new(alloc),
        }
    }

    /// Gives `name` these bytes, in place of those that it had.
    pub(crate) fn add(&mut self, name: &str, bytes: &[u8]) -> Result<(), NoMemory>
        ensures ok { OnOk result (Adds self.old self.new name.now bytes.now) }
        ensures err { OnErr result (self.new ≡ self.old) }
    {
        let name = String::from_str(self.alloc, name)?;
        let bytes = Vec::from_slice(self.alloc, bytes)?;
        self.by_name.insert(name, bytes)?;
        Ok(())
    }

    /// The bytes of `name`, if it is there.
    pub(crate) fn content(&self, name: &str) -> Option<&[u8]>
        ensures { option_copied result ≡ content_in self.now name.now }
    {
        match self.by_name.get(name) {
            Some(bytes) => Some(bytes.as_slice()),
            None => None,
        }
    }
}

/// Copies what the content has from the place `at` on to the front of `into`, and returns how many bytes: as many as
/// there are and fit, but at most `most`.
pub(crate) fn copy_from(content: &[u8], at: u64, most: usize, into: &mut [u8]) -> usize
    ensures count { result ≡ min (min most (length into.new)) (length content.now - at) }
    ensures bytes { take result into.new ≡ take result (drop at content.now) }
{
    let start = content.len().min(at as usize);
    let rest = &content[start..];
    let count = most.min(into.len()).min(rest.len());
    into[..count].copy_from_slice(&rest[..count]);
    count
}
