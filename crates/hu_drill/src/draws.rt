//! Draws of a generator.

ghost use Rattle.std.specs.Prelude.{◌≡◌, ◌<◌, ◌≤ℤ◌, ◌%◌, ◌+◌, pos};
ghost use Rattle.hu_drill.specs.Draws.{next_draw, after_draws};
ghost use Rattle.hu_drill.specs.Drilled.{value_from};

use hu_kind::{Cell, Item};

/// A generator. Its state is below 2^31 - 1.
#[derive(Drop)]
pub(crate) struct Draws {
    pub state: u32,
}

impl Draws {
    /// A draw: it replaces the state, and is the new one.
    fn draw(&mut self) -> u32
        ensures state { self.new.state ≡ next_draw self.old.state }
        ensures value { result ≡ next_draw self.old.state }
        ensures below { result < 2147483647 }
    {
        let next = u64::from(self.state) * 48_271 % 2_147_483_647;
        self.state = next as u32;
        self.state
    }

    /// A cell by two draws: the one tells which of so many items from the first on, the other its value.
    pub(crate) fn cell(&mut self, first: u32, items: u32) -> Cell
        requires some { 0 < items }
        requires fits { first + items < 2147483648 }
        ensures state { self.new.state ≡ after_draws 2 self.old.state }
        ensures item { result.item.0 ≡ first + after_draws 1 self.old.state % items }
        ensures value { result.value ≡ value_from (after_draws 2 self.old.state) }
    {
        let item = first + self.draw() % items;
        let value = 1 + self.draw() % 100;
        Cell {
            item: Item(item),
            value: i128::from(value),
        }
    }
}
