//! Steps: the growths by which a search reaches a pattern.

ghost use Rattle.std.specs.Prelude.{◌≡◌, ◌<◌, length, IfOk, OnOk};
ghost use Rattle.hu_kind.specs.Sequence.{sequence_key};
ghost use Rattle.hu_span.specs.Step.{grown_key, pattern_of};

use hu_chain::Growth;
use hu_kind::{Item, Key, NoMemory};
use std::alloc::Global;

/// A growth by an item.
#[derive(Clone, Copy, Debug, PartialEq, Eq)]
pub(crate) struct Step {
    pub growth: Growth,
    pub item: Item,
}

/// The key of the pattern that steps make, in time for each of them.
pub(crate) fn key_of(alloc: Global, steps: &[Step]) -> Result<Key, NoMemory>
    requires { 0 < length steps.now }
    ensures { IfOk result (λ key. key ≡ sequence_key (pattern_of steps.now)) }
{
    let mut key = Key::new(alloc);
    'steps: for step in steps {
        push_step(&mut key, *step)?;
    }
    key.end_itemset()?;
    Ok(key)
}

/// Puts a step to a key.
fn push_step(key: &mut Key, step: Step) -> Result<(), NoMemory>
    ensures { OnOk result (key.new ≡ grown_key key.old step.growth step.item.0) }
{
    match step.growth {
        Growth::IntoLast => key.push(i64::from(step.item.0)),
        Growth::AfterLast => {
            key.end_itemset()?;
            key.push(i64::from(step.item.0))
        }
    }
}
