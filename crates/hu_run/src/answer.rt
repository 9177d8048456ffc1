//! Answers: what stands between doing a job and writing its text.

ghost use Rattle.std.specs.Prelude.{◌≡◌, flat_map};
ghost use Rattle.hu_io.specs.State.{PutsAll};
ghost use Rattle.hu_drill.specs.Summary.{summary_line};
ghost use Rattle.hu_run.specs.Answer.{line_text, text_of};

use hu_average::write_averages;
use hu_drill::{Summary, write_summary};
use hu_io::{Failed, Sink, put_all};
use hu_kind::{Entry, Task};
use hu_report::write_entries;

/// The answer of a job.
#[derive(Drop)]
pub(crate) enum Answer {
    /// The entries of a task.
    Entries { task: Task, entries: Vec<Entry> },
    /// Entries by average.
    Averages(Vec<Entry>),
    /// A text.
    Text(Vec<u8>),
    /// The lines of a drill.
    Lines(Vec<Line>),
}

/// What a line of a drill says of an answer.
#[derive(Clone, Copy)]
pub(crate) struct Line {
    pub name: &'static str,
    pub summary: Summary,
}

impl Line {
    /// The line of a summary, after a name.
    pub(crate) fn new(name: &'static str, summary: Summary) -> Line
        ensures { line_text result ≡ summary_line name.now summary }
    {
        Line { name, summary }
    }
}

impl Answer {
    /// Writes its text. It takes no memory.
    pub(crate) fn write<S: Sink>(&self, sink: &mut S) -> Result<(), Failed>
        ensures { PutsAll (S.state sink.old) (S.state sink.new) result (text_of self.now) }
    {
        match self {
            Answer::Entries { task, entries } => write_entries(entries, *task, sink),
            Answer::Averages(entries) => write_averages(entries, sink),
            Answer::Text(text) => put_all(sink, text),
            Answer::Lines(lines) => write_lines(lines, sink),
        }
    }
}

/// Writes lines one after another.
fn write_lines<S: Sink>(lines: &[Line], sink: &mut S) -> Result<(), Failed>
    ensures { PutsAll (S.state sink.old) (S.state sink.new) result (flat_map line_text lines.now) }
{
    for line in lines {
        write_summary(line.name, &line.summary, sink)?;
    }
    Ok(())
}
