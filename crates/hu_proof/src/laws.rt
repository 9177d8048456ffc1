//! What an accepted certificate proves, whoever made it. These calls do nothing: their contracts are the laws.

ghost use Rattle.hu_proof.specs.Laws.{OpensAllFound, OpensTheAnswer};

/// An accepted text opens each itemset that reaches its minimum, and the opened prefixes that reach it are the whole
/// answer.
pub fn law_of_certificates()
    ensures found { OpensAllFound }
    ensures answer { OpensTheAnswer }
{}
