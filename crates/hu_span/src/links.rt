//! Items with a number each, and the places at which each is met, linked from the last one back.

ghost use Rattle.std.specs.Prelude.{◌≡◌, ◌<◌, ◌≤◌, ◌%◌, ◌^◌, ◌++◌, [], ◌∷◌, ℕ, List, length, IfOk, OnOk, MatchOption};
ghost use Rattle.hu_span.specs.Links.{buckets, keys_of, picked, AreLinked, AreLinks, AreNumbers, IsAbsent, IsBack, IsNumber, IsNumbered};
ghost use Rattle.hu_span.specs.Mark.{marks_with};

use crate::trail::Held;
use hu_kind::NoMemory;
use std::alloc::Global;

/// Items in the order in which they are first met: the number of each is its place. Those of one remainder are linked
/// from the last one back, and an item is looked for among these.
#[derive(Drop)]
pub(crate) struct Numbers {
    /// For each remainder one more than the number of its last item, or 0.
    pub heads: Vec<usize>,
    pub items: Vec<u32>,
    /// For each item one more than the number of the one before it of its remainder, or 0.
    pub olders: Vec<usize>,
}

impl Numbers {
    /// No items, with room for so many remainders.
    fn new(alloc: Global, room: usize) -> Result<Numbers, NoMemory>
        requires { 0 < room }
        ensures rules { IfOk result AreNumbers }
        ensures none { IfOk result (λ numbers. numbers.items.items ≡ []) }
    {
        Ok(Numbers {
            heads: vec![in alloc; 0usize; room]?,
            items: Vec::new(alloc),
            olders: Vec::new(alloc),
        })
    }

    /// The number of an item, if it was met.
    fn find(&self, item: u32) -> Option<usize>
        requires { AreNumbers self.now }
        ensures { MatchOption result (IsAbsent self.now.items.items item)
            (IsNumber self.now.items.items item) }
    {
        let bucket = bucket_of(self.heads.len(), item);
        find_from(&self.items, &self.olders, self.heads[bucket], item)
    }

    /// Gives a new item the next number.
    fn push(&mut self, item: u32) -> Result<(), NoMemory>
        requires { AreNumbers self.old }
        ensures rules { OnOk result (AreNumbers self.new) }
        ensures items { OnOk result (self.new.items.items ≡ self.old.items.items ++ item ∷ []) }
    {
        let bucket = bucket_of(self.heads.len(), item);
        self.olders.push(self.heads[bucket])?;
        self.items.push(item)?;
        self.heads[bucket] = self.items.len();
        Ok(())
    }
}

/// The remainder of an item.
fn bucket_of(room: usize, item: u32) -> usize
    requires { 0 < room }
    ensures is { result ≡ item % room }
    ensures within { result < room }
{
    item as usize % room
}

/// The number of an item, looked for from one more than that of the last item of its remainder on.
fn find_from(items: &[u32], olders: &[usize], last: usize, item: u32) -> Option<usize>
    requires { (room : ℕ) × AreLinked (buckets room items.now) olders.now
        × IsBack (buckets room items.now) (item % room) last (length items.now) }
    ensures { MatchOption result (IsAbsent items.now item) (IsNumber items.now item) }
{
    let mut upto = last;
    'older: while upto > 0 {
        if items[upto - 1] == item {
            return Some(upto - 1);
        }
        upto = olders[upto - 1];
    }
    None
}

/// The items of marks, with the places of the marks of each.
#[derive(Drop)]
pub(crate) struct Links {
    pub numbers: Numbers,
    /// For each item one more than the place of its last mark.
    pub lasts: Vec<usize>,
    /// For each mark one more than the place of the one before it of its item, or 0.
    pub olders: Vec<usize>,
}

impl Links {
    /// No marks, with room for so many.
    pub(crate) fn new(alloc: Global, count: usize) -> Result<Links, NoMemory>
        ensures rules { IfOk result (λ links. AreLinks links []) }
        ensures none { IfOk result (λ links. links.numbers.items.items ≡ []) }
    {
        Ok(Links {
            numbers: Numbers::new(alloc, count / 4 + 1)?,
            lasts: Vec::new(alloc),
            olders: Vec::with_capacity(alloc, count)?,
        })
    }

    /// Links a mark of an item, and answers by the number of the item.
    pub(crate) fn push(&mut self, item: u32) -> Result<usize, NoMemory>
        requires { (keys : List ℕ) × AreLinks self.old keys }
        ensures rules { OnOk result ((keys : List ℕ) → AreLinks self.old keys
            → AreLinks self.new (keys ++ item ∷ [])) }
        ensures number { IfOk result (IsNumbered self.old.numbers.items.items
            self.new.numbers.items.items item) }
        ensures few { OnOk result (length self.new.olders.items < 2 ^ 64) }
    {
        match self.numbers.find(item) {
            Some(number) => {
                self.olders.push(self.lasts[number])?;
                self.lasts[number] = self.olders.len();
                Ok(number)
            }
            None => {
                self.numbers.push(item)?;
                self.olders.push(0)?;
                self.lasts.push(self.olders.len())?;
                Ok(self.lasts.len() - 1)
            }
        }
    }
}

/// The marks of an item with their spans, from one more than the place of its last one back.
pub(crate) fn collected(
    alloc: Global,
    held: &Held,
    olders: &[usize],
    last: usize,
) -> Result<Held, NoMemory>
    requires size { length olders.now ≡ length held.now.marks.items }
    requires spans { length held.now.spans.items ≡ length held.now.marks.items }
    requires linked { AreLinked (keys_of held.now.marks.items) olders.now }
    requires last { (item : ℕ) × IsBack (keys_of held.now.marks.items) item last
        (length held.now.marks.items) }
    ensures marks { (item : ℕ) → IsBack (keys_of held.now.marks.items) item last
        (length held.now.marks.items)
        → IfOk result (λ own. own.marks.items ≡ marks_with item held.now.marks.items) }
    ensures spans { (item : ℕ) → IsBack (keys_of held.now.marks.items) item last
        (length held.now.marks.items)
        → IfOk result (λ own. own.spans.items
        ≡ picked item (keys_of held.now.marks.items) held.now.spans.items) }
{
    let mut own = Held::new(alloc);
    let mut upto = last;
    'older: while upto > 0 {
        own.push(held.marks[upto - 1], held.spans[upto - 1])?;
        upto = olders[upto - 1];
    }
    own.marks.reverse();
    own.spans.reverse();
    Ok(own)
}
