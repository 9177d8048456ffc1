//! The check of a whole text.

ghost use Rattle.std.specs.Prelude.{◌≡◌, ◌≢◌, ◌⊎◌, ◌≤◌, ◌≤ℤ◌, [], ◌∷◌, None, Some, drop, length, map, pos, IfOk, IfErr, OnOk};
ghost use Rattle.hu_base.specs.Base.{records_of};
ghost use Rattle.hu_kind.specs.Answer.{item_answer};
ghost use Rattle.hu_proof.specs.Check.{first_fault, from_minimum, from_order, order_fault};
ghost use Rattle.hu_proof.specs.Judged.{Judges, JudgesMinimum};
ghost use Rattle.hu_proof.specs.Opened.{answer_of_lines};
ghost use Rattle.hu_proof.specs.Text.{minimum_of, pieces};
ghost use Rattle.hu_proof.specs.Words.{numbers_of};

use crate::fault::CheckFault;
use crate::order::{Order, is_order, stated_order};
use crate::token::plain_number;
use crate::walk::walk;
use crate::words::cut;
use hu_base::Base;
use hu_kind::{Entry, Item, Record};
use std::alloc::Global;

/// The most bytes that a certificate may have.
pub const MOST_BYTES: usize = 268_435_456;

/// The answer of the task `items` over a base from a minimum on, where a text is an accepted certificate of it; else the
/// first fault of the text. Whoever made the text, an accepted one leaves nothing out: see [`crate::laws`].
///
/// Each line takes two passes over the cells of the records that hold its prefix, however many tokens it has: one with up to
/// two look-ups by a hash for each cell and, where a token has a bound, one with a look-up for each cell and a sort of the
/// cells of each record. Each prefix that is opened takes a search by halves in each record that holds the one before. The
/// memory is that of the order, of one line's tokens and bounds, and for each prefix that waits of the places of the records
/// that hold it.
pub fn check(
    alloc: Global,
    base: &Base<Record>,
    least: i128,
    text: &[u8],
) -> Result<Vec<Entry>, CheckFault>
    requires { pos 1 ≤ℤ least }
    ensures answer { IfOk result (λ entries. entries.items
        ≡ item_answer (records_of base.now) least None) }
    ensures accepted { OnOk result (first_fault (records_of base.now) least text.now ≡ None) }
    ensures refused { IfErr result (λ fault. (fault ≡ CheckFault.NoMemory)
        ⊎ (first_fault (records_of base.now) least text.now ≡ Some fault)) }
    ensures never_memory { first_fault
        (records_of base.now) least text.now ≢ Some CheckFault.NoMemory }
{
    if text.len() > MOST_BYTES {
        return Err(CheckFault::TooLong);
    }
    check_text(alloc, base, least, text)
}

/// Checks a text that isn't too long.
fn check_text(
    alloc: Global,
    base: &Base<Record>,
    least: i128,
    text: &[u8],
) -> Result<Vec<Entry>, CheckFault>
    requires least { pos 1 ≤ℤ least }
    requires small { length text.now ≤ MOST_BYTES }
    ensures fault { Judges result (from_minimum (records_of base.now) least (pieces text.now)) }
    ensures answer { IfOk result (λ entries. entries.items
        ≡ answer_of_lines (records_of base.now) least (drop 2 (pieces text.now))) }
{
    let Some((line, rest)) = cut(b'\n', text) else {
        return Err(CheckFault::NotOfForm { line: 1 });
    };
    match minimum_fault(line, least) {
        Some(fault) => Err(fault),
        None => check_order(alloc, base, least, rest),
    }
}

/// What is wrong with line 1.
fn minimum_fault(line: &[u8], least: i128) -> Option<CheckFault>
    ensures { JudgesMinimum least (minimum_of line.now) result }
{
    match minimum_of(line) {
        None => Some(CheckFault::NotOfForm { line: 1 }),
        Some(stated) => {
            if stated == least {
                None
            } else {
                Some(CheckFault::WrongMinimum { stated })
            }
        }
    }
}

/// The minimum that line 1 states.
fn minimum_of(line: &[u8]) -> Option<i128>
    ensures { result ≡ minimum_of line.now }
{
    plain_number(line.strip_prefix(b"cert ")?)
}

/// Checks a text from line 2 on.
fn check_order(
    alloc: Global,
    base: &Base<Record>,
    least: i128,
    text: &[u8],
) -> Result<Vec<Entry>, CheckFault>
    requires least { pos 1 ≤ℤ least }
    requires small { length text.now ≤ MOST_BYTES }
    ensures fault { Judges result (from_order (records_of base.now) least (pieces text.now)) }
    ensures answer { IfOk result (λ entries. entries.items
        ≡ answer_of_lines (records_of base.now) least (drop 1 (pieces text.now))) }
{
    let Some((line, rest)) = cut(b'\n', text) else {
        return Err(CheckFault::NotOfForm { line: 2 });
    };
    match stated_order(alloc, line)? {
        None => Err(CheckFault::NotOfForm { line: 2 }),
        Some(items) => check_walk(alloc, base, least, &items, rest),
    }
}

/// Checks a text from line 3 on, where line 2 states these items.
fn check_walk(
    alloc: Global,
    base: &Base<Record>,
    least: i128,
    items: &[Item],
    text: &[u8],
) -> Result<Vec<Entry>, CheckFault>
    requires least { pos 1 ≤ℤ least }
    requires small { length text.now ≤ MOST_BYTES }
    ensures fault { Judges result (order_fault (records_of base.now) least (Some
        (numbers_of items.now)) (pieces text.now)) }
    ensures answer { IfOk result (λ entries. entries.items
        ≡ answer_of_lines (records_of base.now) least (pieces text.now)) }
{
    if !is_order(alloc, base.records(), items)? {
        return Err(CheckFault::WrongOrder);
    }
    let order = Order::of(alloc, items)?;
    walk(alloc, base, &order, least, text)
}
