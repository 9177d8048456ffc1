//! A page: bytes that wait until a sink takes them together.

ghost use Rattle.std.specs.Prelude.{◌≡◌, ◌≤◌, [], ◌+◌, ◌++◌, length, OnOk};
ghost use Rattle.std.specs.Fmt.{signed_decimal};
ghost use Rattle.hu_io.specs.State.{PutsAll};
ghost use Rattle.hu_report.specs.Page.{Passes};

use hu_io::{Failed, Sink, put_all};
use itoa::Buffer;
use std::marker::Model;

/// How many bytes a page holds.
const PAGE_LEN: usize = 4096;

/// Bytes that wait, on the stack.
#[derive(Drop)]
pub struct Page {
    bytes: [u8; PAGE_LEN],
    len: usize,
}

impl Model for Page {
    ghost use Rattle.std.specs.Prelude.{List, ℕ, ◌≤◌, take};
    ghost use Rattle.hu_report.specs.declared.page.TheConstants.{PAGE_LEN};

    ghost Value = { List ℕ };

    ghost view = { λ p. take p.len p.bytes };

    ghost invariant = { λ p. p.len ≤ PAGE_LEN };
}

impl Page {
    /// No byte waits.
    pub fn new() -> Page
        ensures { result ≡ [] }
    {
        Page {
            bytes: [0; PAGE_LEN],
            len: 0,
        }
    }

    /// Puts all that waits. What waits after a failure is open.
    pub fn flush<S: Sink>(&mut self, sink: &mut S) -> Result<(), Failed>
        ensures puts { PutsAll (S.state sink.old) (S.state sink.new) result self.old }
        ensures empty { OnOk result (self.new ≡ []) }
    {
        put_all(sink, &self.bytes[..self.len])?;
        self.len = 0;
        Ok(())
    }

    /// Has the bytes wait, which have room.
    fn append(&mut self, bytes: &[u8])
        requires { length self.old + length bytes.now ≤ PAGE_LEN }
        ensures { self.new ≡ self.old ++ bytes.now }
    {
        let end = self.len + bytes.len();
        self.bytes[self.len..end].copy_from_slice(bytes);
        self.len = end;
    }

    /// Has the bytes wait. Where they have no room, what waits is put before. What waits after a failure is open.
    pub fn push<S: Sink>(&mut self, bytes: &[u8], sink: &mut S) -> Result<(), Failed>
        requires { length bytes.now ≤ PAGE_LEN }
        ensures { Passes (S.state sink.old) (S.state sink.new) result self.old self.new bytes.now }
    {
        if PAGE_LEN - self.len < bytes.len() {
            self.flush(sink)?;
        }
        self.append(bytes);
        Ok(())
    }

    /// Has the decimal of a number wait.
    pub fn push_number<S: Sink>(&mut self, n: i128, sink: &mut S) -> Result<(), Failed>
        ensures { Passes (S.state sink.old) (S.state sink.new) result
            self.old self.new (signed_decimal n) }
    {
        self.push(Buffer::new().format(n).as_bytes(), sink)
    }

    /// Has a label wait, and after it the decimal of a number.
    pub fn push_field<S: Sink>(&mut self, label: &[u8], n: i128, sink: &mut S) -> Result<(), Failed>
        requires { length label.now ≤ PAGE_LEN }
        ensures { Passes (S.state sink.old) (S.state sink.new) result
            self.old self.new (label.now ++ signed_decimal n) }
    {
        self.push(label, sink)?;
        self.push_number(n, sink)
    }
}
