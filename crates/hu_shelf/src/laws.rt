//! What holds of stores and their texts. These calls do nothing: their contracts are the laws.

ghost use Rattle.hu_shelf.specs.Laws.{StoresHaveOneText, TextsTellStores};
ghost use Rattle.hu_shelf.specs.MemoryKeeper.{UnplannedKeepersNeverFail};

/// The text of a store tells that store, so two stores have two texts.
pub fn law_of_stores()
    ensures { TextsTellStores }
{}

/// A text that tells a store is the store's text, so every store has one text alone.
pub fn law_of_texts()
    ensures { StoresHaveOneText }
{}

/// A call of a `MemoryKeeper` doesn't fail while no call is to fail.
pub fn unplanned_keepers_never_fail()
    ensures { UnplannedKeepersNeverFail }
{}
