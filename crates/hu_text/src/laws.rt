//! What holds of every text. These calls do nothing: their contracts are the laws.

ghost use Rattle.hu_text.specs.Laws.{TextTellsEntries, OneTextOneKeys};
ghost use Rattle.hu_text.specs.Laws.{OneTextOneUtilities, OneTextOneAnswer};
ghost use Rattle.hu_text.specs.Laws.{ItemAnswerIsReadable, ClosedAnswerIsReadable};
ghost use Rattle.hu_text.specs.Laws.{SequenceAnswerIsReadable};
ghost use Rattle.hu_text.specs.RecordLaws.{RecordsAreReadAgain, RecordsAreInput};
ghost use Rattle.hu_text.specs.RecordLaws.{SequencesAreReadAgain, SequencesAreInput};

/// The text of an answer tells its entries. So answers with one text have the same keys and utilities, entry by entry,
/// and of `closed`, which prints supports too, they are the same.
pub fn law_of_answer_texts()
    ensures told { TextTellsEntries }
    ensures keys { OneTextOneKeys }
    ensures utilities { OneTextOneUtilities }
    ensures closed { OneTextOneAnswer }
{}

/// The numbers of every entry of an answer are small enough to be read again.
pub fn law_of_readable_answers()
    ensures items { ItemAnswerIsReadable }
    ensures closed { ClosedAnswerIsReadable }
    ensures sequences { SequenceAnswerIsReadable }
{}

/// A text that has the canonical line of each transaction, with a line feed behind it, is read as these transactions
/// again, and the input of files of such texts has the transactions of all, in order.
pub fn law_of_record_texts()
    ensures again { RecordsAreReadAgain }
    ensures input { RecordsAreInput }
{}

/// So it is of sequences.
pub fn law_of_sequence_texts()
    ensures again { SequencesAreReadAgain }
    ensures input { SequencesAreInput }
{}
