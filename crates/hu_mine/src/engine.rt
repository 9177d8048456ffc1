//! The engines, and what is asked of them.

ghost use Rattle.std.specs.Prelude.{◌≡◌};
ghost use Rattle.hu_mine.specs.Engine.{offers, offers_further};

use hu_kind::Task;

/// An engine: the way in which patterns are searched. All engines of a task give the same answer.
#[derive(Clone, Copy, Debug, PartialEq, Eq)]
pub enum Engine {
    /// Every pattern that occurs is tried.
    Plain,
    /// Utility lists.
    Lists,
    /// Projected rows, of which those of the whole base are merged.
    Project,
    /// A kept answer to which batches are appended.
    Kept,
    /// Utility chains, for sequences.
    Chain,
}

impl Engine {
    /// Whether a task offers the engine.
    pub fn serves(self, task: Task) -> bool
        ensures { result ≡ offers task self }
    {
        match (task, self) {
            (Task::Items | Task::Closed, Engine::Chain) => false,
            (
                Task::Items | Task::Closed,
                Engine::Plain | Engine::Lists | Engine::Project | Engine::Kept,
            ) => true,
            (Task::Sequences, Engine::Plain | Engine::Chain) => true,
            (Task::Sequences, Engine::Lists | Engine::Project | Engine::Kept) => false,
        }
    }

    /// Whether the further tasks offer the engine: itemsets of some lengths, and those of a high average utility.
    pub fn serves_further(self) -> bool
        ensures { result ≡ offers_further self }
    {
        match self {
            Engine::Plain | Engine::Lists => true,
            Engine::Project | Engine::Kept | Engine::Chain => false,
        }
    }
}

/// What is asked of an engine: the first `top` patterns, or all of them, that earn at least `least`.
#[derive(Clone, Copy, Debug, PartialEq, Eq)]
pub struct Wanted {
    /// The engine.
    pub engine: Engine,
    /// The least utility of a pattern.
    pub least: i128,
    /// How many are wanted at the most.
    pub top: Option<u32>,
}
