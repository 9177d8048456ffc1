//! The line that tells how an answer changed.

ghost use Rattle.hu_io.specs.State.{PutsAll};
ghost use Rattle.hu_report.specs.Page.{Passes};
ghost use Rattle.hu_run.specs.ShelfEnding.{changes_line, dropped_text};

use hu_io::{Failed, Sink};
use hu_kept::Changes;
use hu_report::Page;

/// Writes how an answer changed, as one line. It takes no memory. A failure leaves a proper front of the line put.
pub(crate) fn write_changes<S: Sink>(changes: Changes, sink: &mut S) -> Result<(), Failed>
    ensures { PutsAll (S.state sink.old) (S.state sink.new) result (changes_line changes) }
{
    let mut page = Page::new();
    push_changes(changes, &mut page, sink)?;
    page.flush(sink)
}

/// Has the line wait.
fn push_changes<S: Sink>(changes: Changes, page: &mut Page, sink: &mut S) -> Result<(), Failed>
    ensures { Passes (S.state sink.old) (S.state sink.new) result
        page.old page.new (changes_line changes) }
{
    page.push_field(b"added ", i128::from(changes.added), sink)?;
    page.push_field(b" changed ", i128::from(changes.changed), sink)?;
    push_dropped(changes.dropped, page, sink)
}

/// Has the end of the line wait.
fn push_dropped<S: Sink>(dropped: u64, page: &mut Page, sink: &mut S) -> Result<(), Failed>
    ensures { Passes (S.state sink.old) (S.state sink.new) result
        page.old page.new (dropped_text dropped) }
{
    page.push_field(b" dropped ", i128::from(dropped), sink)?;
    page.push(b"\n", sink)
}
