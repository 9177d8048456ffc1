//! Batches of records as one base.

ghost use Rattle.std.specs.Prelude.{◌≡◌, ◌<◌, ◌^◌, pos, IfOk};
ghost use Rattle.std.specs.List.{sum_by};
ghost use Rattle.hu_base.specs.Base.{records_of, records_in};

use hu_base::Base;
use hu_kind::{Absolute, NoMemory};
use std::alloc::Global;

/// All records of the batches as one base, in their order. They move, in constant amortised time for each.
pub fn joined<R: Absolute>(alloc: Global, batches: Vec<Base<R>>) -> Result<Base<R>, NoMemory>
    requires { sum_by R.absolute (records_in batches.items) < 2 ^ 127 }
    ensures { IfOk result (λ base. records_of base ≡ records_in batches.items) }
{
    let mut base = Base::after(alloc, 0);
    for batch in batches {
        base.join_fitting(batch)?;
    }
    Ok(base)
}
