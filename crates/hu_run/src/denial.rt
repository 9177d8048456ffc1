//! Why a certificate isn't accepted, in words.

ghost use Rattle.std.specs.Prelude.{◌≡◌, pos, ◌++◌, flat_map};
ghost use Rattle.std.specs.Fmt.{signed_decimal};
ghost use Rattle.hu_input.specs.Part.{part_text};
ghost use Rattle.hu_run.specs.Stop.{fault_line, denial_text, denied_line};

use hu_input::Part;
use hu_kind::Item;
use hu_proof::CheckFault;

/// A text in six parts, some of them empty.
type DenialParts = [Part<'static>; 6];

/// The line that tells of a certificate that isn't accepted, in constant time and without memory.
pub(crate) fn fault_line(cert: &str, fault: CheckFault) -> [Part<'_>; 12]
    ensures { flat_map part_text result ≡ fault_line cert.now fault }
{
    let [first, second, third, fourth, fifth, sixth] = denial_parts(fault);
    [
        Part::Text("hupm: "),
        Part::Text(cert),
        Part::Text(":"),
        Part::Number(i128::from(denied_line(fault))),
        Part::Text(": "),
        first,
        second,
        third,
        fourth,
        fifth,
        sixth,
        Part::Text("\n"),
    ]
}

/// The line of the certificate that has the fault.
fn denied_line(fault: CheckFault) -> u64
    ensures { result ≡ denied_line fault }
{
    match fault {
        CheckFault::NotOfForm { line }
        | CheckFault::WrongPrefix { line }
        | CheckFault::WrongUtility { line, .. }
        | CheckFault::WrongChild { line, .. }
        | CheckFault::LeftOut { line, .. }
        | CheckFault::WrongBound { line, .. }
        | CheckFault::NotCut { line, .. } => line,
        CheckFault::WrongOrder => 2,
        CheckFault::TooLong | CheckFault::WrongMinimum { .. } | CheckFault::NoMemory => 1,
    }
}

/// The reason in words.
fn denial_parts(fault: CheckFault) -> DenialParts
    ensures { flat_map part_text result ≡ denial_text fault }
{
    match fault {
        CheckFault::TooLong => alone("certificate too long"),
        CheckFault::NotOfForm { .. } => alone("not of the form"),
        CheckFault::WrongMinimum { stated } => one("minimum ", stated, " stated"),
        CheckFault::WrongOrder => alone("wrong order of items"),
        CheckFault::WrongPrefix { .. } => alone("wrong prefix"),
        CheckFault::WrongUtility { stated, summed, .. } => {
            two("utility ", stated, " but sum ", summed, "")
        }
        CheckFault::WrongChild { item, .. } => one("item ", number(item), " out of order"),
        CheckFault::LeftOut { item, .. } => one("item ", number(item), " left out"),
        CheckFault::WrongBound {
            item,
            stated,
            summed,
            ..
        } => [
            Part::Text("bound "),
            Part::Number(stated),
            Part::Text(" of item "),
            Part::Number(number(item)),
            Part::Text(" but sum "),
            Part::Number(summed),
        ],
        CheckFault::NotCut { item, bound, .. } => {
            two("bound ", bound, " of item ", number(item), " reaches")
        }
        CheckFault::NoMemory => alone("out of memory"),
    }
}

/// The number of an item.
fn number(item: Item) -> i128
    ensures { result ≡ pos item.0 }
{
    i128::from(item.0)
}

/// A text alone.
fn alone(text: &'static str) -> DenialParts
    ensures { flat_map part_text result ≡ text.now }
{
    [
        Part::Text(text),
        Part::Text(""),
        Part::Text(""),
        Part::Text(""),
        Part::Text(""),
        Part::Text(""),
    ]
}

/// A number between texts.
fn one(front: &'static str, number: i128, back: &'static str) -> DenialParts
    ensures { flat_map part_text result ≡ front.now ++ signed_decimal number ++ back.now }
{
    [
        Part::Text(front),
        Part::Number(number),
        Part::Text(back),
        Part::Text(""),
        Part::Text(""),
        Part::Text(""),
    ]
}

/// Two numbers between texts.
fn two(
    front: &'static str,
    first: i128,
    between: &'static str,
    second: i128,
    back: &'static str,
) -> DenialParts
    ensures { flat_map part_text result
        ≡ front.now ++ signed_decimal first ++ between.now ++ signed_decimal second ++ back.now }
{
    [
        Part::Text(front),
        Part::Number(first),
        Part::Text(between),
        Part::Number(second),
        Part::Text(back),
        Part::Text(""),
    ]
}
