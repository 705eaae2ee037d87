//! How often each net stands in a list.
ghost use Rattle.std.specs.Prelude.{◌≡◌, ◌<◌, ◌≤◌, ℕ, length, slice_index, All, IfOk, MatchOption};
ghost use Rattle.ds_netlist.specs.Steps.{AreTimes, IsFirstFree, IsFirstTwice};

use ds_base::NetId;
use std::alloc::{AllocError, Global};

// How often each net below the count stands in the list.
pub(crate) fn counts_of(alloc: Global, count: usize, nets: &[NetId]) -> Result<Vec<u64>, AllocError>
    requires inside { All (λ net. net < count) nets.now }
    ensures ok { IfOk result (λ v. AreTimes count nets.now v.items) }
{
    let mut counts: Vec<u64> = vec![in alloc; 0; count]?;
    for net in nets {
        counts[net.index()] += 1;
    }
    Ok(counts)
}

// The first place with two or more.
pub(crate) fn first_twice(counts: &[u64]) -> Option<usize>
    ensures value { MatchOption result
        ((k : ℕ) → k < length counts.now → slice_index counts.now k < 2)
        (λ k. IsFirstTwice counts.now k) }
{
    counts.iter().position(|times| *times >= 2)
}

// The first place that is used and not driven.
pub(crate) fn first_free(uses: &[u64], counts: &[u64]) -> Option<usize>
    requires sizes { length uses.now ≡ length counts.now }
    ensures value { MatchOption result
        ((k : ℕ) → k < length counts.now → 0 < slice_index uses.now k
        → 0 < slice_index counts.now k)
        (λ k. IsFirstFree uses.now counts.now k) }
{
    uses.iter()
        .zip(counts)
        .position(|(uses, times)| *uses > 0 && *times == 0)
}
