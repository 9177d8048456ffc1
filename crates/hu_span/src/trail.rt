//! Trails: the cells that a level of the search walks over, and where those behind its marks stand.

ghost use Rattle.std.specs.Prelude.{◌≡◌, ◌++◌, ◌+◌, ◌<◌, ◌≤◌, ◌^◌, ℕ, Bool, [], ◌∷◌, length, reverse, slice_index_or, OnOk};
ghost use Rattle.hu_kind.specs.Cell.{pairs_of};
ghost use Rattle.hu_kind.specs.Sequence.{IsSequence};
ghost use Rattle.hu_span.specs.declared.mark.Mark.{Mark};
ghost use Rattle.hu_span.specs.Growing.{Records};
ghost use Rattle.hu_span.specs.Trail.{cells_at, cells_from, numbered, span_of, AreSpans, IsSpan, IsWithin};

use crate::mark::Mark;
use hu_kind::{Cell, Element, Item, NoMemory};
use std::alloc::Global;

/// A cell of a record, by the number of its element and its own.
#[derive(Clone, Copy)]
pub(crate) struct TrailCell {
    pub item: Item,
    pub element: u32,
    pub cell: u32,
    pub value: i128,
}

/// Where cells of a row stand in a trail, the last one of the row first.
#[derive(Clone, Copy)]
pub(crate) struct Span {
    pub low: usize,
    pub high: usize,
}

impl Span {
    /// The cells at a span.
    fn of(self, trail: &[TrailCell]) -> &[TrailCell]
        requires { IsWithin trail.now self }
        ensures { reverse result.now ≡ cells_at trail.now self }
    {
        &trail[self.low..self.high]
    }
}

/// Cells of a row, the last one first, and where they begin in a trail.
#[derive(Clone, Copy)]
pub(crate) struct Stretch<'a> {
    pub cells: &'a [TrailCell],
    pub low: usize,
}

/// Marks, each with the span of the cells behind it.
#[derive(Drop)]
pub(crate) struct Held {
    pub marks: Vec<Mark>,
    pub spans: Vec<Span>,
}

impl Held {
    /// No marks. It takes no memory.
    pub(crate) fn new(alloc: Global) -> Held
        ensures marks { result.marks.items ≡ [] }
        ensures spans { result.spans.items ≡ [] }
    {
        Held {
            marks: Vec::new(alloc),
            spans: Vec::new(alloc),
        }
    }

    /// Appends a mark.
    #[inline(always)]
    pub(crate) fn push(&mut self, mark: Mark, span: Span) -> Result<(), NoMemory>
        ensures marks { OnOk result (self.new.marks.items ≡ self.old.marks.items ++ mark ∷ []) }
        ensures spans { OnOk result (self.new.spans.items ≡ self.old.spans.items ++ span ∷ []) }
    {
        self.marks.push(mark)?;
        self.spans.push(span)?;
        Ok(())
    }

    /// The cells behind a mark.
    pub(crate) fn behind<'a>(&self, number: usize, trail: &'a [TrailCell]) -> Stretch<'a>
        requires number { number < length self.now.marks.items }
        requires spans { (keep : ℕ → Bool) × (records : Records)
            × AreSpans keep records trail.now self.now.marks.items self.now.spans.items }
        ensures within { result.low + length result.cells.now < 2 ^ 64 }
        ensures cells { reverse result.cells.now ≡ cells_at trail.now (span_of result) }
        ensures span { (keep : ℕ → Bool) → (records : Records) → (none : Mark)
            → AreSpans keep records trail.now self.now.marks.items self.now.spans.items
            → IsSpan keep records trail.now (slice_index_or self.now.marks.items number none)
            (span_of result) }
    {
        let span = self.spans[number];
        Stretch {
            cells: span.of(trail),
            low: span.low,
        }
    }

    /// Takes all marks away. The memory stays.
    pub(crate) fn clear(&mut self)
        ensures marks { self.new.marks.items ≡ [] }
        ensures spans { self.new.spans.items ≡ [] }
    {
        self.marks.clear();
        self.spans.clear();
    }
}

/// Appends the cells of a record, the last one first.
pub(crate) fn push_record(trail: &mut Vec<TrailCell>, elements: &[Element]) -> Result<(), NoMemory>
    requires { IsSequence elements.now }
    ensures { OnOk result (trail.new.items ≡ trail.old.items ++ reverse (cells_from 0 elements.now)) }
{
    let mut left = elements;
    'elements: while let Some((element, before)) = left.split_last() {
        push_element(trail, before.len() as u32, element.cells())?;
        left = before;
    }
    Ok(())
}

/// Appends the cells of an element, the last one first.
fn push_element(trail: &mut Vec<TrailCell>, element: u32, cells: &[Cell]) -> Result<(), NoMemory>
    requires { length cells.now ≤ 4096 }
    ensures { OnOk result (trail.new.items
        ≡ trail.old.items ++ reverse (numbered element 0 (pairs_of cells.now))) }
{
    let mut left = cells;
    'cells: while let Some((cell, before)) = left.split_last() {
        trail.push(TrailCell {
            item: cell.item,
            element,
            cell: before.len() as u32,
            value: cell.value,
        })?;
        left = before;
    }
    Ok(())
}
