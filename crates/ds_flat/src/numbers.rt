//! The numbers of names in a copy.
ghost use Rattle.std.specs.Prelude.{◌≡◌, length, IfOk, IfErr, OnOk};
ghost use Rattle.ds_flat.specs.Net.{net_of_name, number_of_net, with_net, numbered_names};
ghost use Rattle.ds_flat.specs.Keys.{IsNoNumber};

use crate::fault::NoNumber;
use crate::nets::NetList;
use crate::scope::Scope;
use ds_base::NetId;
use ds_design::{Word, Words};
use std::alloc::Global;

// The number of a name.
fn net_number<'m>(
    nets: &mut NetList<'m>,
    scope: &Scope<'m>,
    name: &'m [u8],
) -> Result<NetId, NoNumber>
    ensures number { IfOk result (λ n. n ≡ number_of_net nets.old
        (net_of_name scope.now name.now)) }
    ensures ok { OnOk result (nets.new ≡ with_net nets.old (net_of_name scope.now name.now)) }
    ensures fault { IfErr result (λ e. IsNoNumber e
        (with_net nets.old (net_of_name scope.now name.now))) }
{
    nets.number(scope.net(name))
}

/// The number of a name.
pub fn number<'m>(
    nets: &mut NetList<'m>,
    scope: &Scope<'m>,
    name: &Word<'m>,
) -> Result<NetId, NoNumber>
    ensures number { IfOk result (λ n. n ≡ number_of_net nets.old
        (net_of_name scope.now name.now)) }
    ensures ok { OnOk result (nets.new ≡ with_net nets.old (net_of_name scope.now name.now)) }
    ensures fault { IfErr result (λ e. IsNoNumber e
        (with_net nets.old (net_of_name scope.now name.now))) }
{
    net_number(nets, scope, name.get())
}

/// The numbers of names, from the left to the right.
pub fn numbers<'m>(
    alloc: Global,
    nets: &mut NetList<'m>,
    scope: &Scope<'m>,
    names: &Words<'m>,
) -> Result<Vec<NetId>, NoNumber>
    ensures ok { IfOk result (λ n. record { numbers = n.items; nets = nets.new }
        ≡ numbered_names scope.now nets.old names.now) }
    ensures len { IfOk result (λ n. length n.items ≡ length names.now) }
    ensures fault { IfErr result
        (λ e. IsNoNumber e (numbered_names scope.now nets.old names.now).nets) }
{
    let mut numbers = Vec::with_capacity(alloc, names.len())?;
    for k in 0..names.len() {
        match net_number(nets, scope, names.word(k)) {
            Ok(found) => numbers.push(found)?,
            Err(stop) => return Err(stop),
        }
    }
    Ok(numbers)
}
