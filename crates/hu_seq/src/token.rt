//! Tokens of a sequence line.

ghost use Rattle.std.specs.Prelude.{◌≡◌, ◌<◌, ◌≤◌, ◌==◌, false, length, position, IfSome};
ghost use Rattle.std.specs.Option.{option_map};
ghost use Rattle.hu_kind.specs.Cell.{pair_of};
ghost use Rattle.hu_seq.specs.Token.{token_of, total_of, cell_of, cell_inside, cell_from, is_cell, is_itemset_end, is_sequence_end, is_total, is_out_of_range, is_negative, pair_in};

use hu_kind::{Cell, Item, read_number, read_signed};

/// What one token of a line says.
#[derive(Clone, Copy, Debug, PartialEq, Eq)]
pub(crate) enum Token {
    /// An item, by its number, with its utility: `3[8]`.
    Cell { item: u128, value: i128 },
    /// The end of an itemset: `-1`.
    ItemsetEnd,
    /// The end of the sequence: `-2`.
    SequenceEnd,
    /// The sum of all utilities, as the line states it: `SUtility:8`.
    Total(i128),
}

/// What a text says, where it is a token of one of the four kinds.
#[tactic(auto, unfolding(crate::specs::Token::token_of))]
pub(crate) fn token_of(text: &[u8]) -> Option<Token>
    ensures { result ≡ token_of text.now }
{
    match text {
        b"-1" => Some(Token::ItemsetEnd),
        b"-2" => Some(Token::SequenceEnd),
        _ => total_of(text).or_else(|| cell_of(text)),
    }
}

/// The total that a text says: `SUtility:` and a signed number.
fn total_of(text: &[u8]) -> Option<Token>
    ensures { result ≡ total_of text.now }
{
    let sum = text.strip_prefix(b"SUtility:")?;
    read_signed(sum).ok().map(Token::Total)
}

/// The cell that a text says: a number, `[`, a signed number and `]`.
fn cell_of(text: &[u8]) -> Option<Token>
    ensures { result ≡ cell_of text.now }
{
    cell_inside(text.strip_suffix(b"]")?)
}

/// The cell of two texts, of its item and of its value, with the first `[` between them.
fn cell_inside(text: &[u8]) -> Option<Token>
    ensures { result ≡ cell_inside text.now }
{
    let open = bracket_place(text)?;
    cell_from(&text[..open], &text[open + 1..])
}

/// Where the first `[` of a text stands.
fn bracket_place(text: &[u8]) -> Option<usize>
    ensures value { result ≡ position (λ byte. byte == 91) text.now }
    ensures within { IfSome result (λ k. k < length text.now) }
{
    text.iter().position(|byte| *byte == b'[')
}

/// The cell of a text of its item and a text of its value.
fn cell_from(item: &[u8], value: &[u8]) -> Option<Token>
    ensures { result ≡ cell_from item.now value.now }
{
    let item = read_number(item).ok()?;
    let value = read_signed(value).ok()?;
    Some(Token::Cell {
        item: item.unsigned_abs(),
        value,
    })
}

impl Token {
    /// Whether it is a cell.
    pub(crate) fn is_cell(self) -> bool
        ensures { result ≡ is_cell self }
    {
        matches!(self, Token::Cell { .. })
    }

    /// The cell that it is, if it is one.
    pub(crate) fn cell(self) -> Option<Cell>
        requires { is_out_of_range self ≡ false }
        ensures value { option_map pair_of result ≡ pair_in self }
        ensures in_range { IfSome result (λ cell. cell.item.0 ≤ 2147483647) }
    {
        match self {
            Token::Cell { item, value } => Some(Cell {
                item: Item(item as u32),
                value,
            }),
            _ => None,
        }
    }

    /// Whether it ends an itemset.
    pub(crate) fn is_itemset_end(self) -> bool
        ensures { result ≡ is_itemset_end self }
    {
        matches!(self, Token::ItemsetEnd)
    }

    /// Whether it ends the sequence.
    pub(crate) fn is_sequence_end(self) -> bool
        ensures { result ≡ is_sequence_end self }
    {
        matches!(self, Token::SequenceEnd)
    }

    /// Whether it is a total.
    pub(crate) fn is_total(self) -> bool
        ensures { result ≡ is_total self }
    {
        matches!(self, Token::Total(_))
    }

    /// Whether it is a cell whose item is above [`Item::GREATEST`].
    pub(crate) fn is_out_of_range(self) -> bool
        ensures { result ≡ is_out_of_range self }
    {
        matches!(self, Token::Cell { item, .. } if item > u128::from(Item::GREATEST))
    }

    /// Whether it is a cell whose value is below 0.
    pub(crate) fn is_negative(self) -> bool
        ensures { result ≡ is_negative self }
    {
        matches!(self, Token::Cell { value, .. } if value < 0)
    }
}
