//! The key of a set of ranks.

use crate::builders::ranked_at;
use hu_search::key_of;
use std::test::Fail;

/// The item 3 stands in one record, 2 in two and 1 in three: these are the ranks 0, 1 and 2.
const THREE_RECORDS: [&[(u32, i128)]; 3] = [
    &[(1, 1), (2, 1), (3, 1)],
    &[(1, 1), (2, 1)],
    &[(1, 1)],
];

#[test]
fn items_of_ranks_ascend(rt: HostRuntime) -> Result<(), Fail> {
    let ranked = ranked_at(&rt, rt.alloc(), &THREE_RECORDS, 1)?;
    // This tells the proof the rules of ranked records.
    let _records = ranked.records();
    assert_eq!(rt; ranked.len(), 3);
    let key = key_of(rt.alloc(), &ranked, &[0], 2)?;
    assert_eq!(rt; key.numbers(), [1, 3].as_slice());
    let key = key_of(rt.alloc(), &ranked, &[0, 1], 2)?;
    assert_eq!(rt; key.numbers(), [1, 2, 3].as_slice());
    Ok(())
}
