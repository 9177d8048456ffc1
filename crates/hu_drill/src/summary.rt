//! What a line says of an answer.

ghost use Rattle.std.specs.Prelude.{◌≡◌};
ghost use Rattle.hu_io.specs.State.{PutsAll};
ghost use Rattle.hu_report.specs.Page.{Passes};
ghost use Rattle.hu_drill.specs.Summary.{summary_line, summary_of, greatest, numbers_text, total_of, total_text, AreEarned};

use hu_io::{Failed, Sink};
use hu_kind::Entry;
use hu_report::Page;

/// How many bytes of a name are put at a time.
const PIECE_LEN: usize = 4096;

/// How many entries an answer has, and what they earn.
#[derive(Clone, Copy, Debug, PartialEq, Eq)]
pub struct Summary {
    /// The number of entries.
    pub count: u64,
    /// The greatest utility, 0 for no entries.
    pub greatest: i128,
    /// The sum of the utilities.
    pub total: i128,
}

impl Summary {
    /// What entries come to, each of which earns at least 1.
    pub fn of(entries: &[Entry]) -> Summary
        requires { AreEarned entries.now }
        ensures { result ≡ summary_of entries.now }
    {
        Summary {
            count: entries.len() as u64,
            greatest: greatest(entries),
            total: total(entries),
        }
    }
}

/// The greatest utility, 0 for no entries.
fn greatest(entries: &[Entry]) -> i128
    requires { AreEarned entries.now }
    ensures { result ≡ greatest entries.now }
{
    let mut greatest = 0;
    for entry in entries {
        greatest = greatest.max(entry.utility);
    }
    greatest
}

/// The sum of the utilities.
fn total(entries: &[Entry]) -> i128
    requires { AreEarned entries.now }
    ensures { result ≡ total_of entries.now }
{
    let mut sum = 0;
    for entry in entries {
        sum += entry.utility;
    }
    sum
}

/// Writes a name and the numbers of a summary as one line. It takes no memory. A failure leaves a
/// proper front of the line put.
pub fn write_summary<S: Sink>(name: &str, summary: &Summary, sink: &mut S) -> Result<(), Failed>
    ensures { PutsAll (S.state sink.old) (S.state sink.new) result
        (summary_line name.now summary.now) }
{
    let mut page = Page::new();
    push_text(name.as_bytes(), &mut page, sink)?;
    push_numbers(summary, &mut page, sink)?;
    page.flush(sink)
}

/// Has the numbers of a summary wait, and after them the line feed.
fn push_numbers<S: Sink>(summary: &Summary, page: &mut Page, sink: &mut S) -> Result<(), Failed>
    ensures { Passes (S.state sink.old) (S.state sink.new) result
        page.old page.new (numbers_text summary.now) }
{
    page.push_field(b" ", i128::from(summary.count), sink)?;
    page.push_field(b" ", summary.greatest, sink)?;
    push_total(summary, page, sink)
}

/// Has the sum of a summary wait, and after it the line feed.
fn push_total<S: Sink>(summary: &Summary, page: &mut Page, sink: &mut S) -> Result<(), Failed>
    ensures { Passes (S.state sink.old) (S.state sink.new) result
        page.old page.new (total_text summary.now) }
{
    page.push_field(b" ", summary.total, sink)?;
    page.push(b"\n", sink)
}

/// Has a text of any length wait, a page at a time.
fn push_text<S: Sink>(text: &[u8], page: &mut Page, sink: &mut S) -> Result<(), Failed>
    ensures { Passes (S.state sink.old) (S.state sink.new) result page.old page.new text.now }
{
    let mut left = text;
    while !left.is_empty() {
        let (piece, later) = left.split_at(left.len().min(PIECE_LEN));
        page.push(piece, sink)?;
        left = later;
    }
    Ok(())
}
