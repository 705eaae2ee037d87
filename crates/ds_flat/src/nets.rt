//! The nets of a design, by number.
ghost use Rattle.std.specs.Prelude.{◌≡◌, ◌<◌, ◌≤◌, ◌++◌, ◌∷◌, [], false, length};
ghost use Rattle.std.specs.Prelude.{IfOk, IfErr, OnOk};
ghost use Rattle.std.specs.Hash as fed;
ghost use Rattle.std.specs.Hash.{and-Alike, on_Alike, same_Alike};
ghost use Rattle.std.specs.Cmp.{unsigned_Decides};
ghost use Rattle.std.proofs.lemmas.Slice.Eq.{bytes_eq-Decides};
ghost use Rattle.ds_base.specs.Limit.{most_of};
ghost use Rattle.ds_base.specs.declared.number.Limit.TheVariants.{Nets};
ghost use Rattle.ds_flat.specs.Net.{has_net, number_of_net, with_net};
ghost use Rattle.ds_flat.specs.Keys.{net_key, IsNoNumber};

use crate::fault::NoNumber;
use ds_base::{Limit, NetId, OutOfMemory, Seq};
use ds_design::Net;
use indexmap::IndexSet;
use std::alloc::Global;
use std::hash::{Hash, Hasher};
use std::marker::Model;

/// A net: its copy, and its name there.
#[derive(Clone, Copy, PartialEq, Eq)]
pub struct NetKey<'m> {
    pub copy: u32,
    pub name: &'m [u8],
}

// The name goes to the hasher as one piece; a slice by itself would go byte by byte.
impl<'m> Hash for NetKey<'m> {
    ghost hash_input = { λ k. fed.u32 k.copy ++ (k.name.now ∷ []) };

    ghost respects_eq = { (and-Alike
        (on_Alike (λ k. k.copy) (same_Alike fed.u32 unsigned_Decides))
        (on_Alike (λ k. k.name.now) (same_Alike (λ name. name ∷ []) bytes_eq-Decides))).fed };

    fn hash<H: Hasher>(&self, state: &mut H) {
        state.write_u32(self.copy);
        state.write(self.name);
    }
}

/// Nets in the order of their first appearance, each once, not more than there may be.
pub struct NetList<'m> {
    set: IndexSet<NetKey<'m>>,
}

impl Drop for NetList<'_> {
    fn drop(self) {
        let NetList { set: _ } = self;
    }
}

impl<'m> Model for NetList<'m> {
    ghost use Rattle.std.specs.Prelude.{List, map, length, ◌≤◌};
    ghost use Rattle.ds_design.specs.declared.design.Net.{Net};
    ghost use Rattle.ds_flat.specs.Keys.{net_key};

    ghost Value = { List Net };

    ghost view = { λ n. map net_key n.set.keys };

    ghost invariant = { λ n. length n.set.keys ≤ 65536 };
}

impl<'m> NetList<'m> {
    /// Without nets.
    pub fn new(alloc: Global) -> Self
        ensures { result ≡ [] }
    {
        NetList {
            set: IndexSet::new(alloc),
        }
    }

    /// How many there are.
    pub fn len(&self) -> usize
        ensures { result ≡ length self.now }
    {
        self.set.len()
    }

    /// The number of a net, which is added where it is not there yet.
    pub fn number(&mut self, net: NetKey<'m>) -> Result<NetId, NoNumber>
        ensures number { IfOk result (λ n. n ≡ number_of_net self.old (net_key net.entry)) }
        ensures ok { OnOk result (self.new ≡ with_net self.old (net_key net.entry)) }
        ensures fault { IfErr result (λ e. IsNoNumber e (with_net self.old (net_key net.entry))) }
    {
        match self.set.get_index_of(&net) {
            Some(place) => Ok(NetId::new(place as u32)),
            None => self.added(net),
        }
    }

    // The number of a net that is not there yet.
    fn added(&mut self, net: NetKey<'m>) -> Result<NetId, NoNumber>
        requires new { has_net self.old (net_key net) ≡ false }
        ensures number { IfOk result (λ n. n ≡ number_of_net self.old (net_key net.entry)) }
        ensures ok { OnOk result (self.new ≡ with_net self.old (net_key net.entry)) }
        ensures fault { IfErr result (λ e. IsNoNumber e (with_net self.old (net_key net.entry))) }
    {
        if self.set.len() as u64 == Limit::Nets.most() {
            return Err(NoNumber::TooManyNets);
        }
        let (place, _) = self.set.insert_full(net)?;
        Ok(NetId::new(place as u32))
    }

    /// The nets, with their names.
    pub fn to_nets(&self, alloc: Global) -> Result<Seq<Net>, OutOfMemory>
        ensures { IfOk result (λ nets. nets ≡ self.now) }
    {
        let mut nets = Vec::with_capacity(alloc, self.set.len())?;
        for key in self.set.as_slice() {
            nets.push(net(alloc, *key)?)?;
        }
        Ok(Seq::of(nets))
    }
}

// A net with a name of its own.
fn net(alloc: Global, key: NetKey<'_>) -> Result<Net, OutOfMemory>
    ensures { IfOk result (λ net. net ≡ net_key key.entry) }
{
    let bytes = key.name.to_vec(alloc)?;
    Ok(Net {
        copy: key.copy,
        name: Seq::of(bytes),
    })
}
