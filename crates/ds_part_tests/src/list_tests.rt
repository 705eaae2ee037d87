//! A list that grows.

use ds_base::{OutOfMemory, Seq};
use std::alloc::Global;

// Whether a list has 3 and 1 in the order in which they were added, also once it is made anew of
// its items.
fn keeps_order(alloc: Global) -> Result<bool, OutOfMemory> {
    let mut list = Seq::new(alloc);
    list.push(3)?;
    list.push(1)?;
    let first = list.as_slice() == [3, 1].as_slice();
    let same = Seq::of(list.into_vec());
    Ok(first && same.as_slice() == [3, 1].as_slice())
}

#[test]
fn a_list_keeps_its_order(rt: HostRuntime) {
    assert!(rt; matches!(keeps_order(rt.alloc()), Ok(true)));
}
