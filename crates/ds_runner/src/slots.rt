//! Passes are moved into slots, and back.
ghost use Rattle.std.specs.Prelude.{◌≡◌, ◌≤◌, Some, [], map, replicate, length, vec_capacity};
ghost use Rattle.std.specs.Prelude.{IfOk, vec_len};

use crate::plays::Key;
use ds_base::OutOfMemory;
use ds_fabric::Pass;
use std::alloc::Global;

/// A word for each node, all 0 (free), and room for as many slots.
pub fn rooms(alloc: Global, count: usize) -> Result<(Vec<u64>, Vec<Option<Pass>>), OutOfMemory>
    ensures words { IfOk result (λ r. r.0.items ≡ replicate count 0) }
    ensures slots { IfOk result (λ r. (r.1.items ≡ []) × (count ≤ vec_capacity r.1)) }
{
    let words = vec![in alloc; 0u64; count]?;
    let slots = Vec::with_capacity(alloc, count)?;
    Ok((words, slots))
}

/// The passes go in order into slots, for which there is room.
pub fn fill_slots(passes: &mut Vec<Pass>, slots: &mut Vec<Option<Pass>>)
    requires none { slots.old.items ≡ [] }
    requires room { vec_len passes.old ≤ vec_capacity slots.old }

    ensures moved { slots.new.items ≡ map Some passes.old.items }
    ensures none { passes.new.items ≡ [] }
    ensures room { vec_capacity passes.new ≡ vec_capacity passes.old }
{
    passes.reverse();
    while let Some(pass) = passes.pop() {
        slots.push_reserved(Some(pass));
    }
}

/// They come back.
pub fn empty_slots(key: &Key, mut slots: Vec<Option<Pass>>, passes: &mut Vec<Pass>)
    requires slots { slots.items ≡ map Some key.now.passes.value.items }
    requires none { passes.old.items ≡ [] }
    requires room { vec_len slots ≤ vec_capacity passes.old }

    ensures back { passes.new.items ≡ key.now.passes.value.items }
    ensures room { vec_capacity passes.new ≡ vec_capacity passes.old }
{
    slots.reverse();
    while let Some(slot) = slots.pop() {
        let Some(pass) = slot else { unreachable!() };
        passes.push_reserved(pass);
    }
    slots.destroy_empty();
}
