//! The text that a keeper has under a name.

ghost use Rattle.std.specs.Prelude.{◌≡◌, ◌<◌, ◌≤◌, [], ◌++◌, length, MatchBool, MatchOption, IfOk, IfErr, OnOk};
ghost use Rattle.hu_shelf.specs.Keeper.{Told};
ghost use Rattle.hu_shelf.specs.Shelf.{Refuses};

use crate::fault::ShelfFault;
use crate::keeper::Keeper;
use hu_kind::NoMemory;
use std::alloc::Global;

/// The greatest number of bytes of a store's text.
pub(crate) const MOST_BYTES: usize = 268_435_456;

/// How many bytes are read at a time.
const BUFFER: usize = 65_536;

/// Whether the text of a name is empty. It takes no memory.
pub(crate) fn is_empty<K: Keeper>(keeper: &mut K, name: &str) -> Result<bool, ShelfFault>
    ensures told { IfOk result (λ empty. Told (K.state keeper.old) name.now
        (λ text. MatchBool empty (text ≡ []) (0 < length text))) }
    ensures same { OnOk result (K.state keeper.new ≡ K.state keeper.old) }
    ensures err { IfErr result (Refuses (K.state keeper.old) (K.state keeper.new) name.now
        (λ _. ⊥)) }
{
    let mut first = [0];
    let count = keeper.load(name, 0, &mut first)?;
    Ok(count == 0)
}

/// The text of a name, where it has at most 268,435,456 bytes.
pub(crate) fn read<K: Keeper>(
    alloc: Global,
    keeper: &mut K,
    name: &str,
) -> Result<Option<Vec<u8>>, ShelfFault>
    ensures told { IfOk result (λ found. Told (K.state keeper.old) name.now
        (λ text. MatchOption found (MOST_BYTES < length text) (λ bytes. bytes.items ≡ text))) }
    ensures same { OnOk result (K.state keeper.new ≡ K.state keeper.old) }
    ensures err { IfErr result (Refuses (K.state keeper.old) (K.state keeper.new) name.now
        (λ _. ⊥)) }
{
    let mut buffer = new_buffer(alloc)?;
    read_by(alloc, keeper, name, &mut buffer)
}

/// The text of a name, read by way of a buffer.
fn read_by<K: Keeper>(
    alloc: Global,
    keeper: &mut K,
    name: &str,
    buffer: &mut [u8],
) -> Result<Option<Vec<u8>>, ShelfFault>
    requires { 0 < length buffer.old }
    ensures told { IfOk result (λ found. Told (K.state keeper.old) name.now
        (λ text. MatchOption found (MOST_BYTES < length text) (λ bytes. bytes.items ≡ text))) }
    ensures same { OnOk result (K.state keeper.new ≡ K.state keeper.old) }
    ensures err { IfErr result (Refuses (K.state keeper.old) (K.state keeper.new) name.now
        (λ _. ⊥)) }
{
    let mut text = Vec::new(alloc);
    'pieces: while text.len() <= MOST_BYTES {
        let count = keeper.load(name, text.len() as u64, buffer)?;
        if count == 0 {
            return Ok(Some(text));
        }
        push_piece(&mut text, &buffer[..count])?;
    }
    Ok(None)
}

/// Adds a piece to a text.
fn push_piece(text: &mut Vec<u8>, piece: &[u8]) -> Result<(), NoMemory>
    ensures { OnOk result (text.new.items ≡ text.old.items ++ piece.now) }
{
    text.extend_from_slice(piece)?;
    Ok(())
}

/// A buffer to read into.
fn new_buffer(alloc: Global) -> Result<Vec<u8>, NoMemory>
    ensures { IfOk result (λ buffer. 0 < length buffer.items) }
{
    Ok(vec![in alloc; 0u8; BUFFER]?)
}
