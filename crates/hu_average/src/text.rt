//! Lines of entries by average.

ghost use Rattle.std.specs.Prelude.{◌≡◌, []};
ghost use Rattle.hu_io.specs.State.{PutsAll};
ghost use Rattle.hu_report.specs.Page.{Passes};
ghost use Rattle.hu_report.specs.Text.{key_text};
ghost use Rattle.hu_average.specs.Text.{average_text, average_line, length_text};

use hu_io::{Failed, Sink};
use hu_kind::Entry;
use hu_report::{Page, push_key};

/// Writes a line for each entry, in order: its numbers, its utility and how many numbers they are. It takes no memory, and puts
/// some 4,096 bytes at a time. A failure leaves a proper front of the text put, and the sink's count rose. Where there is no
/// entry, the sink isn't called.
pub fn write_averages<S: Sink>(entries: &[Entry], sink: &mut S) -> Result<(), Failed>
    ensures puts { PutsAll (S.state sink.old) (S.state sink.new) result (average_text entries.now) }
    ensures none { entries.now ≡ [] → sink.new ≡ sink.old }
{
    if entries.is_empty() {
        return Ok(());
    }
    let mut page = Page::new();
    for entry in entries {
        push_line(entry, &mut page, sink)?;
    }
    page.flush(sink)
}

/// Puts the line of an entry to a page.
fn push_line<S: Sink>(entry: &Entry, page: &mut Page, sink: &mut S) -> Result<(), Failed>
    ensures { Passes (S.state sink.old) (S.state sink.new) result page.old page.new
        (average_line entry.now) }
{
    push_key(entry.key.numbers(), page, sink)?;
    page.push_field(b" #UTIL: ", entry.utility, sink)?;
    push_length(entry.key.numbers().len(), page, sink)
}

/// Puts the end of a line, with a length.
fn push_length<S: Sink>(count: usize, page: &mut Page, sink: &mut S) -> Result<(), Failed>
    ensures { Passes (S.state sink.old) (S.state sink.new) result page.old page.new
        (length_text count) }
{
    page.push_field(b" #LEN: ", count as i128, sink)?;
    page.push(b"\n", sink)
}
