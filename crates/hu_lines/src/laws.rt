//! What holds of lines and refusals, whatever the bytes. These calls do nothing: their contracts are the laws.

ghost use Rattle.hu_lines.specs.Laws.{WholePieceComesFirst, RestIsOnePiece, FirstPieceComesFirst, RefusalStands, FirstRefusalStands, HeldComesFirst, FedComesFirst, FedGivesLines};

/// Bytes that end with their only line feed are the first piece, and the pieces of what follows come after it.
#[tactic(auto, using(crate::proofs::lemmas::PieceLemmas::whole_piece_first))]
pub fn whole_piece_comes_first()
    ensures { WholePieceComesFirst }
{}

/// Bytes without a line feed are one piece, where there are any.
#[tactic(auto, using(crate::proofs::lemmas::PieceLemmas::rest_one_piece))]
pub fn rest_is_one_piece()
    ensures { RestIsOnePiece }
{}

/// The first piece of bytes comes first, and then the pieces of what is left.
#[tactic(auto, using(crate::proofs::lemmas::PieceLemmas::first_piece_first))]
pub fn first_piece_comes_first()
    ensures { FirstPieceComesFirst }
{}

/// What is refused before its line ends stays refused, however the line goes on.
#[tactic(auto, using(crate::proofs::lemmas::LimitLemmas::refusal_more))]
pub fn refusal_stands()
    ensures { RefusalStands }
{}

/// What is refused of the first piece of bytes stays refused, whatever bytes come after them.
#[tactic(auto, using(crate::proofs::lemmas::LimitLemmas::refusal_first))]
pub fn first_refusal_stands()
    ensures { FirstRefusalStands }
{}

/// Of what a reader holds and the bytes after it, the piece that has ended comes first.
#[tactic(auto, using(crate::proofs::lemmas::HeldLemmas::held_first))]
pub fn held_comes_first()
    ensures { HeldComesFirst }
{}

/// Feeding loses no byte: what was held, the piece that is fed and the bytes after it have the pieces of what is then
/// held, what wasn't taken and the bytes after it, after the piece that ended, where one did.
#[tactic(auto, using(crate::proofs::lemmas::HeldLemmas::fed_first))]
pub fn fed_comes_first()
    ensures { FedComesFirst }
{}

/// A file that is fed in any cuts, and then ended, gives the lines of its bytes, or the refusal of the first line that
/// passes a limit. So two cuts of the same bytes give the same.
#[tactic(auto, using(crate::proofs::lemmas::CutLemmas::fed_lines))]
pub fn fed_gives_lines()
    ensures { FedGivesLines }
{}
