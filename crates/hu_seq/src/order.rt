//! The order of the tokens of a line: one or more itemsets, then the end of the sequence, then one total or nothing.

ghost use Rattle.std.specs.Prelude.{◌≡◌, ◌<◌, ◌||◌, None, Some, length, position, IfSome, IfOk, IfErr, OnOk};
ghost use Rattle.std.specs.List.{list_any};
ghost use Rattle.hu_kind.specs.First.{first_some};
ghost use Rattle.hu_seq.specs.Token.{is_cell, is_itemset_end, is_sequence_end, is_total};
ghost use Rattle.hu_seq.specs.Reading.{first_is, last_is, has_two_ends, is_total_or_nothing, body, order_faults};

use crate::fault::SeqFault;
use crate::token::Token;

/// What stands before the end of the sequence, without its last token; or the first fault in the order of the tokens.
pub(crate) fn body(tokens: &[Token]) -> Result<&[Token], SeqFault>
    ensures value { IfOk result (λ part. part.now ≡ body tokens.now) }
    ensures ok { OnOk result (first_some (order_faults tokens.now) ≡ None) }
    ensures err { IfErr result (λ fault. first_some (order_faults tokens.now) ≡ Some fault) }
{
    let Some(end) = end_place(tokens) else {
        return Err(SeqFault::NoEnd);
    };
    if has_total(&tokens[..end]) || !is_total_or_nothing(&tokens[end + 1..]) {
        return Err(SeqFault::AfterEnd);
    }
    if is_open(&tokens[..end]) {
        return Err(SeqFault::OpenItemset);
    }
    if has_empty_itemset(tokens) {
        return Err(SeqFault::EmptyItemset);
    }
    if end == 0 {
        return Err(SeqFault::NoItems);
    }
    Ok(&tokens[..end - 1])
}

/// Where the sequence ends.
fn end_place(tokens: &[Token]) -> Option<usize>
    ensures value { result ≡ position is_sequence_end tokens.now }
    ensures within { IfSome result (λ end. end < length tokens.now) }
{
    tokens.iter().position(|token| token.is_sequence_end())
}

/// Whether a total stands among the tokens.
fn has_total(tokens: &[Token]) -> bool
    ensures { result ≡ list_any is_total tokens.now }
{
    tokens.iter().any(|token| token.is_total())
}

/// Whether the tokens are none, or one total alone.
fn is_total_or_nothing(tokens: &[Token]) -> bool
    ensures { result ≡ is_total_or_nothing tokens.now }
{
    match tokens {
        [] => true,
        [token] => token.is_total(),
        _ => false,
    }
}

/// Whether the last of the tokens is a cell.
fn is_open(tokens: &[Token]) -> bool
    ensures { result ≡ last_is is_cell tokens.now }
{
    tokens.last().is_some_and(|token| token.is_cell())
}

/// Whether the end of an itemset is the first token or follows the end of an itemset.
fn has_empty_itemset(tokens: &[Token]) -> bool
    ensures { result ≡ (first_is is_itemset_end tokens.now || has_two_ends tokens.now) }
{
    let mut begins = true;
    for token in tokens {
        let ends = token.is_itemset_end();
        if begins && ends {
            return true;
        }
        begins = ends;
    }
    false
}
