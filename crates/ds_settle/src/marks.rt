//! Marks on nets.
ghost use Rattle.std.specs.Prelude.{◌≡◌, ◌<◌, ◌≤◌, ◌^◌, All, IfOk, false, length, replicate};
ghost use Rattle.std.specs.Prelude.{slice_index_or, slice_set, true};

use ds_base::{NetId, OutOfMemory};
use std::alloc::Global;
use std::marker::Model;

// One mark a net. A net is marked where its mark is the stamp of the present walk, so that a new
// walk begins without a pass over all nets. Contracts see which nets are marked.
#[derive(Drop)]
pub(crate) struct Marks {
    marks: Vec<u32>,
    stamp: u32,
}

impl Model for Marks {
    ghost use Rattle.std.specs.Prelude.{◌==◌, ◌≤◌, All, Bool, List, map};

    ghost Value = { List Bool };

    ghost view = { λ m. map (λ mark. mark == m.stamp) m.marks.items };

    ghost invariant = { λ m. All (λ mark. mark ≤ m.stamp) m.marks.items };
}

impl Marks {
    // For so many nets.
    pub(crate) fn new(alloc: Global, nets: usize) -> Result<Self, OutOfMemory>
        ensures { IfOk result (λ marks. length marks ≡ nets) }
    {
        Ok(Marks {
            marks: vec![in alloc; 0; nets]?,
            stamp: 0,
        })
    }

    // No net is marked from here on.
    pub(crate) fn begin(&mut self)
        ensures { self.new ≡ replicate (length self.old) false }
    {
        self.stamp = next_stamp(self.marks.as_mut_slice(), self.stamp);
    }

    pub(crate) fn is_marked(&self, net: NetId) -> bool
        requires { net < length self.now }
        ensures { result ≡ slice_index_or self.now net false }
    {
        self.marks[net.index()] == self.stamp
    }

    pub(crate) fn mark(&mut self, net: NetId)
        requires { net < length self.old }
        ensures { self.new ≡ slice_set self.old net true }
    {
        self.marks[net.index()] = self.stamp;
    }
}

// A stamp that no mark has. Where the numbers end, the marks begin anew.
fn next_stamp(marks: &mut [u32], stamp: u32) -> u32
    requires { All (λ mark. mark ≤ stamp) marks.old }
    ensures { All (λ mark. mark < result) marks.new }
{
    if stamp == u32::MAX {
        marks.fill(0);
        return 1;
    }
    stamp + 1
}
