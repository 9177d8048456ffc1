//! Reading a sequence line.

ghost use Rattle.std.specs.Prelude.{◌≡◌, ◌≢◌, ◌≤◌, ◌⊎◌, ◌++◌, None, Some, length, map, vec_len, OnOk, IfOk, IfErr};
ghost use Rattle.hu_kind.specs.Cells.{by_item};
ghost use Rattle.hu_kind.specs.Token.{tokens};
ghost use Rattle.hu_kind.specs.First.{first_some};
ghost use Rattle.hu_seq.specs.Reading.{reading, bad_token, known, order_faults, cell_faults, body, itemsets};

use crate::checks::{check_items, check_total, check_values};
use crate::fault::SeqFault;
use crate::itemset::elements;
use crate::order::body;
use crate::token::{Token, token_of};
use hu_kind::{Absolute, SeqRecord, Tokens};
use std::alloc::Global;

/// The sequence of a line, or its first fault. A line of c tokens takes c log c steps, and memory for what they say; no
/// token is copied.
pub fn read_sequence(alloc: Global, line: &[u8]) -> Result<SeqRecord, SeqFault>
    requires { length line.now ≤ 1048576 }
    ensures ok { IfOk result (λ one. reading line.now ≡ Ok one) }
    ensures err { IfErr result (λ fault. (fault ≡ SeqFault.NoMemory) ⊎ (reading line.now ≡ Err fault)) }
    ensures always { reading line.now ≢ Err SeqFault.NoMemory }
{
    let tokens = read_tokens(alloc, line)?;
    sequence(alloc, &tokens)
}

/// The tokens of a line, or the place of the first that is of none of the four kinds.
fn read_tokens(alloc: Global, line: &[u8]) -> Result<Vec<Token>, SeqFault>
    requires { length line.now ≤ 1048576 }
    ensures told { IfOk result (λ told. told.items ≡ known line.now) }
    ensures few { IfOk result (λ told. vec_len told ≤ length line.now) }
    ensures ok { OnOk result (bad_token (tokens line.now) ≡ None) }
    ensures err { IfErr result (λ fault. (fault ≡ SeqFault.NoMemory) ⊎
        (bad_token (tokens line.now) ≡ Some fault)) }
{
    let mut told = Vec::new(alloc);
    for text in Tokens::of(line) {
        match token_of(text) {
            Some(token) => told.push(token)?,
            None => {
                return Err(SeqFault::BadToken {
                    at: told.len() as u32 + 1,
                });
            }
        }
    }
    Ok(told)
}

/// The sequence that tokens tell, or the first fault in their order, their cells or their total.
fn sequence(alloc: Global, tokens: &[Token]) -> Result<SeqRecord, SeqFault>
    requires { length tokens.now ≤ 1048576 }
    ensures value { IfOk result (λ one. one ≡ map by_item (itemsets (body tokens.now))) }
    ensures ok { OnOk result (first_some (order_faults tokens.now ++ cell_faults tokens.now) ≡ None) }
    ensures err { IfErr result (λ fault. (fault ≡ SeqFault.NoMemory)
        ⊎ (first_some (order_faults tokens.now ++ cell_faults tokens.now) ≡ Some fault)) }
{
    let part = body(tokens)?;
    check_items(tokens)?;
    let elements = elements(alloc, part)?;
    check_values(tokens)?;
    let Some(one) = SeqRecord::new(elements) else {
        return Err(SeqFault::SumTooLarge);
    };
    check_total(tokens, one.absolute())?;
    Ok(one)
}
