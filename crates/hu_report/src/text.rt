//! Lines of entries.

ghost use Rattle.std.specs.Prelude.{◌≡◌, []};
ghost use Rattle.hu_io.specs.State.{PutsAll};
ghost use Rattle.hu_report.specs.Page.{Passes};
ghost use Rattle.hu_report.specs.Text.{answer_text, closed_line, item_line, key_text, line_of, spaced_text, utility_text};

use crate::page::Page;
use hu_io::{Failed, Sink};
use hu_kind::{Entry, Task};

/// Writes a line for each entry, in order. It takes no memory, and puts some 4,096 bytes at a time. A failure leaves a
/// proper front of the text put. Where there is no entry, the sink isn't called.
pub fn write_entries<S: Sink>(entries: &[Entry], task: Task, sink: &mut S) -> Result<(), Failed>
    ensures puts { PutsAll (S.state sink.old) (S.state sink.new) result
        (answer_text task entries.now) }
    ensures none { entries.now ≡ [] → sink.new ≡ sink.old }
{
    if entries.is_empty() {
        return Ok(());
    }
    let mut page = Page::new();
    for entry in entries {
        push_line(entry, task, &mut page, sink)?;
    }
    page.flush(sink)
}

/// Puts the line of an entry to a page.
fn push_line<S: Sink>(
    entry: &Entry,
    task: Task,
    page: &mut Page,
    sink: &mut S,
) -> Result<(), Failed>
    ensures { Passes (S.state sink.old) (S.state sink.new) result
        page.old page.new (line_of task entry.now) }
{
    match task {
        Task::Items | Task::Sequences => push_item_line(entry, page, sink),
        Task::Closed => push_closed_line(entry, page, sink),
    }
}

/// Puts a line without a support.
fn push_item_line<S: Sink>(entry: &Entry, page: &mut Page, sink: &mut S) -> Result<(), Failed>
    ensures { Passes (S.state sink.old) (S.state sink.new) result
        page.old page.new (item_line entry.now) }
{
    push_key(entry.key.numbers(), page, sink)?;
    push_utility(entry.utility, page, sink)
}

/// Puts a line with the support.
fn push_closed_line<S: Sink>(entry: &Entry, page: &mut Page, sink: &mut S) -> Result<(), Failed>
    ensures { Passes (S.state sink.old) (S.state sink.new) result
        page.old page.new (closed_line entry.now) }
{
    push_key(entry.key.numbers(), page, sink)?;
    page.push_field(b" #SUP: ", i128::from(entry.support), sink)?;
    push_utility(entry.utility, page, sink)
}

/// Puts the end of a line, with a utility.
fn push_utility<S: Sink>(utility: i128, page: &mut Page, sink: &mut S) -> Result<(), Failed>
    ensures { Passes (S.state sink.old) (S.state sink.new) result
        page.old page.new (utility_text utility) }
{
    page.push_field(b" #UTIL: ", utility, sink)?;
    page.push(b"\n", sink)
}

/// Puts the numbers of a key to a page, with one space between. It takes no memory, in linear time.
pub fn push_key<S: Sink>(numbers: &[i64], page: &mut Page, sink: &mut S) -> Result<(), Failed>
    ensures { Passes (S.state sink.old) (S.state sink.new) result
        page.old page.new (key_text numbers.now) }
{
    let Some((first, others)) = numbers.split_first() else {
        return Ok(());
    };
    page.push_number(i128::from(*first), sink)?;
    push_spaced(others, page, sink)
}

/// The numbers, with a space before each.
fn push_spaced<S: Sink>(numbers: &[i64], page: &mut Page, sink: &mut S) -> Result<(), Failed>
    ensures { Passes (S.state sink.old) (S.state sink.new) result
        page.old page.new (spaced_text numbers.now) }
{
    for number in numbers {
        page.push_field(b" ", i128::from(*number), sink)?;
    }
    Ok(())
}
