//! The registers of a design, found by the hash of their nets' copies and names.
ghost use Rattle.std.specs.Prelude.{◌≡◌, ◌<◌, ◌^◌, IfOk, length, slice_index_or};
ghost use Rattle.ds_design.specs.InRange.{IsInRange};
ghost use Rattle.ds_groups.specs.Indexed.{IsIndex};
ghost use Rattle.ds_groups.specs.Keys.{net_of_key};
ghost use Rattle.ds_groups.specs.Latest.{driven_net as the_net_of, IsLatest, HaveShortCopies};
ghost use Rattle.ds_groups.specs.Names.{driven_nets};

use crate::key::Key;
use crate::net_index::NetIndex;
use ds_base::{OutOfMemory, RegId};
use ds_design::{Design, Net};
use std::alloc::Global;
use std::marker::Model;

/// The registers of a design by the nets that they drive. Contracts see these nets.
pub(crate) struct Named<'a> {
    design: &'a Design,
    index: NetIndex<'a>,
}

impl Drop for Named<'_> {
    fn drop(self) {
        let Named {
            design: _,
            index: _,
        } = self;
    }
}

impl<'a> Model for Named<'a> {
    ghost use Rattle.std.specs.Prelude.{List, length};
    ghost use Rattle.ds_design.specs.declared.design.Net.{Net};
    ghost use Rattle.ds_groups.specs.Indexed.{IsIndex};
    ghost use Rattle.ds_groups.specs.Latest.{HaveShortCopies};
    ghost use Rattle.ds_groups.specs.Names.{driven_nets};

    ghost Value = { List Net };

    ghost view = { λ n. driven_nets n.design.now };

    ghost invariant = { λ n.
        IsIndex (driven_nets n.design.now) (length (driven_nets n.design.now)) n.index
        × HaveShortCopies (driven_nets n.design.now) };
}

impl<'a> Named<'a> {
    /// Of a design.
    pub(crate) fn of(alloc: Global, design: &'a Design) -> Result<Self, OutOfMemory>
        ensures { IfOk result (λ n. n ≡ driven_nets design.now) }
    {
        let mut index = NetIndex::new(alloc);
        for i in 0..design.registers().len() {
            let register = RegId::new(i as u32);
            let net = net_of(design, i);
            index.put(register, net)?;
        }
        Ok(Named { design, index })
    }

    /// How many registers there are.
    pub(crate) fn count(&self) -> usize
        ensures value { result ≡ length self.now }
        ensures few { result < 2 ^ 32 }
        ensures short { HaveShortCopies self.now }
    {
        self.design.registers().len()
    }

    /// The net that a register drives.
    pub(crate) fn net(&self, i: usize) -> &'a Net
        requires { i < length self.now }
        ensures { result.now ≡ the_net_of self.now i }
    {
        net_of(self.design, i)
    }

    /// The last register that drives the net of a key.
    pub(crate) fn latest(&self, key: &Key<'_>) -> Option<RegId>
        ensures { IsLatest self.now (length self.now) (net_of_key key.now) result }
    {
        self.index.latest(key)
    }

    /// The register before this one that drives a net like its own.
    pub(crate) fn earlier(&self, register: RegId) -> Option<RegId>
        requires { register < length self.now }
        ensures { IsLatest self.now register (the_net_of self.now register) result }
    {
        self.index.earlier(register)
    }
}

// The net that a register drives.
fn net_of(design: &Design, i: usize) -> &Net
    requires { i < length design.now.registers }
    ensures net { result.now ≡ the_net_of (driven_nets design.now) i }
    ensures short { result.now.copy < 2 ^ 32 }
{
    let output = design.registers()[i].output;
    let net = &design.nets()[output.index()];
    let _copy = net.copy;
    net
}
