//! Why lines are refused.

ghost use Rattle.std.specs.Prelude.{◌≡◌, [], ◌++◌, decimal, flat_map};
ghost use Rattle.std.specs.Fmt.{signed_decimal};
ghost use Rattle.hu_input.specs.Part.{part_text};
ghost use Rattle.hu_input.specs.Reason.{reason_text, fault_text, seq_fault_text, total_disagrees};

use crate::part::Part;
use hu_kind::Item;
use hu_seq::SeqFault;
use hu_trans::Fault;

/// Why a line is refused.
#[derive(Clone, Copy, Debug, PartialEq, Eq)]
pub enum Reason {
    /// It has more than 1,048,576 bytes before its line feed.
    LineTooLong,
    /// The bytes of all files, up to some byte of it, are more than 268,435,456.
    InputTooLarge,
    /// The absolute values of all records so far would sum to more than 2^127 - 1.
    SumTooLarge,
    /// It is no transaction.
    Transaction(Fault),
    /// It is no sequence.
    Sequence(SeqFault),
}

/// A text in four parts, some of them empty.
pub type Parts = [Part<'static>; 4];

impl Reason {
    /// The reason in words, in constant time and without memory.
    pub fn parts(&self) -> Parts
        ensures { flat_map part_text result ≡ reason_text self.now }
    {
        match self {
            Reason::LineTooLong => text_parts("line too long"),
            Reason::InputTooLarge => text_parts("input too large"),
            Reason::SumTooLarge => text_parts("sum too large"),
            Reason::Transaction(fault) => fault_parts(*fault),
            Reason::Sequence(fault) => seq_fault_parts(*fault),
        }
    }
}

/// The reason of a line that is no transaction.
fn fault_parts(fault: Fault) -> Parts
    ensures { flat_map part_text result ≡ fault_text fault }
{
    match fault {
        Fault::NotThreeParts => text_parts("not three parts"),
        Fault::BadNumber { part, at } => number_parts(
            "bad number in part ",
            i128::from(part),
            " at ",
            i128::from(at),
        ),
        Fault::NoItems => text_parts("no items"),
        Fault::TooManyItems { count } => count_parts("too many items: ", count, ""),
        Fault::CountsDiffer { items, utilities } => [
            Part::Number(i128::from(items)),
            Part::Text(" items but "),
            Part::Number(i128::from(utilities)),
            Part::Text(" utilities"),
        ],
        Fault::ItemOutOfRange { at } => count_parts("item out of range at ", at, ""),
        Fault::DuplicateItem { item: Item(item) } => count_parts("item ", item, " twice"),
        Fault::SumTooLarge => text_parts("sum too large"),
        Fault::TotalDisagrees { stated, summed } => total_parts(stated, summed),
        Fault::NoMemory => text_parts("out of memory"),
    }
}

/// The reason of a line that is no sequence.
fn seq_fault_parts(fault: SeqFault) -> Parts
    ensures { flat_map part_text result ≡ seq_fault_text fault }
{
    match fault {
        SeqFault::BadToken { at } => count_parts("bad token at ", at, ""),
        SeqFault::NoEnd => text_parts("no end"),
        SeqFault::AfterEnd => text_parts("a total alone may follow the end"),
        SeqFault::OpenItemset => text_parts("itemset left open"),
        SeqFault::EmptyItemset => text_parts("empty itemset"),
        SeqFault::NoItems => text_parts("no items"),
        SeqFault::TooManyItems { count } => count_parts("too many items: ", count, ""),
        SeqFault::ItemOutOfRange { at } => count_parts("item out of range at ", at, ""),
        SeqFault::DuplicateItem { item: Item(item) } => count_parts("item ", item, " twice"),
        SeqFault::Negative { at } => count_parts("negative utility at ", at, ""),
        SeqFault::SumTooLarge => text_parts("sum too large"),
        SeqFault::TotalDisagrees { stated, summed } => total_parts(stated, summed),
        SeqFault::NoMemory => text_parts("out of memory"),
    }
}

/// A text alone.
fn text_parts(text: &'static str) -> Parts
    ensures { flat_map part_text result ≡ text.now }
{
    [
        Part::Text(text),
        Part::Text(""),
        Part::Text(""),
        Part::Text(""),
    ]
}

/// A number between two texts.
fn count_parts(first: &'static str, count: u32, second: &'static str) -> Parts
    ensures { flat_map part_text result ≡ first.now ++ (decimal count ++ second.now) }
{
    [
        Part::Text(first),
        Part::Number(i128::from(count)),
        Part::Text(second),
        Part::Text(""),
    ]
}

/// Two texts, each with a number behind it.
fn number_parts(first: &'static str, one: i128, second: &'static str, other: i128) -> Parts
    ensures { flat_map part_text result
        ≡ first.now ++ (signed_decimal one ++ (second.now ++ (signed_decimal other ++ []))) }
{
    [
        Part::Text(first),
        Part::Number(one),
        Part::Text(second),
        Part::Number(other),
    ]
}

/// The reason of a total that isn't the sum.
fn total_parts(stated: i128, summed: i128) -> Parts
    ensures { flat_map part_text result ≡ total_disagrees stated summed }
{
    number_parts("total ", stated, " but sum ", summed)
}
