//! Checks of the cells of a line and of its total.

ghost use Rattle.std.specs.Prelude.{◌≡◌, ◌≤◌, ◌<◌, [], ◌∷◌, None, length, filter_map, position, IfSome};
ghost use Rattle.std.specs.List.{count_by};
ghost use Rattle.std.specs.Result.{result_err};
ghost use Rattle.hu_kind.specs.Record.{total};
ghost use Rattle.hu_kind.specs.First.{first_some};
ghost use Rattle.hu_seq.specs.Token.{is_cell, is_out_of_range, is_negative, sum_in};
ghost use Rattle.hu_seq.specs.Reading.{cells, too_many_items, item_out_of_range, negative, total_disagrees};

use crate::fault::SeqFault;
use crate::token::Token;
use hu_kind::Record;

/// Whether there are at most 4,096 cells, and the item of each is in its range.
pub(crate) fn check_items(tokens: &[Token]) -> Result<(), SeqFault>
    requires { length tokens.now ≤ 1048576 }
    ensures { result_err result
        ≡ first_some (too_many_items tokens.now ∷ item_out_of_range tokens.now ∷ []) }
{
    let count = cell_count(tokens);
    if count > Record::MOST_CELLS {
        return Err(SeqFault::TooManyItems {
            count: count as u32,
        });
    }
    match great_place(tokens) {
        Some(place) => Err(SeqFault::ItemOutOfRange {
            at: place as u32 + 1,
        }),
        None => Ok(()),
    }
}

/// How many cells there are.
fn cell_count(tokens: &[Token]) -> usize
    ensures value { result ≡ count_by is_cell tokens.now }
    ensures within { result ≤ length tokens.now }
{
    tokens.iter().filter(|token| token.is_cell()).count()
}

/// Where the first cell stands whose item is out of range.
fn great_place(tokens: &[Token]) -> Option<usize>
    ensures value { result ≡ position is_out_of_range tokens.now }
    ensures within { IfSome result (λ place. place < length tokens.now) }
{
    tokens.iter().position(|token| token.is_out_of_range())
}

/// Whether no value is below 0.
pub(crate) fn check_values(tokens: &[Token]) -> Result<(), SeqFault>
    requires { length tokens.now ≤ 1048576 }
    ensures { result_err result ≡ negative tokens.now }
{
    match negative_place(tokens) {
        Some(place) => Err(SeqFault::Negative {
            at: place as u32 + 1,
        }),
        None => Ok(()),
    }
}

/// Where the first cell stands whose value is below 0.
fn negative_place(tokens: &[Token]) -> Option<usize>
    ensures value { result ≡ position is_negative tokens.now }
    ensures within { IfSome result (λ place. place < length tokens.now) }
{
    tokens.iter().position(|token| token.is_negative())
}

/// Whether no total stands, or the first one is the sum of the values.
pub(crate) fn check_total(tokens: &[Token], summed: i128) -> Result<(), SeqFault>
    requires { summed ≡ total (cells tokens.now) }
    ensures { result_err result ≡ total_disagrees (filter_map sum_in tokens.now) (cells tokens.now) }
{
    for token in tokens {
        if let Token::Total(stated) = *token {
            if stated != summed {
                return Err(SeqFault::TotalDisagrees { stated, summed });
            }
            return Ok(());
        }
    }
    Ok(())
}
