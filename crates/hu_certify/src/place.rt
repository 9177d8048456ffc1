//! The records that hold a prefix, and what the prefix earns over them.

ghost use Rattle.std.specs.Prelude.{◌≡◌, pos, map, IfOk};
ghost use Rattle.hu_totals.specs.View.{pairs_in};
ghost use Rattle.hu_certify.specs.Spots.{earned, spots_of, HasRoom};

use hu_kind::NoMemory;
use hu_totals::Dense;
use std::alloc::Global;

/// A record that holds a prefix: its cells after the prefix, by rank ascending, and what the prefix earns there.
#[derive(Clone, Copy, Drop)]
pub(crate) struct Place<'a> {
    pub rest: &'a [Dense],
    pub own: i128,
}

/// The places of the empty prefix.
pub(crate) fn first_places(
    alloc: Global,
    records: &[Vec<Dense>],
) -> Result<Vec<Place<'_>>, NoMemory>
    ensures { IfOk result (λ places. spots_of
        places.items ≡ map (λ cells. (pairs_in cells, pos 0)) records.now) }
{
    let mut places = Vec::with_capacity(alloc, records.len())?;
    for record in records {
        places.push(Place {
            rest: record.as_slice(),
            own: 0,
        })?;
    }
    Ok(places)
}

/// What a prefix earns.
pub(crate) fn earned(places: &[Place<'_>]) -> i128
    requires { HasRoom (spots_of places.now) }
    ensures { result ≡ earned (spots_of places.now) }
{
    let mut sum = 0;
    for place in places {
        sum += place.own;
    }
    sum
}
