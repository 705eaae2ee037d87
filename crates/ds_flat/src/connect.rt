//! The connected formals of a use.
ghost use Rattle.std.specs.Prelude.{◌≡◌, ◌≢◌, ◌∷◌, [], false, AllPairs, IfOk, IfErr, OnOk};
ghost use Rattle.ds_flat.specs.Net.{numbered_names};
ghost use Rattle.ds_flat.specs.Copies.{actuals_in, bindings_in};
ghost use Rattle.ds_flat.specs.Keys.{has_formal, IsNoNumber};
ghost use Rattle.ds_flat.specs.Run.{connected};

use crate::fault::NoNumber;
use crate::nets::NetList;
use crate::scope::Scope;
use ds_design::Pair;
use std::alloc::Global;

/// The connected formals of a use in the next copy, each with the caller's net, which is numbered.
pub fn connect<'m>(
    alloc: Global,
    nets: &mut NetList<'m>,
    caller: &Scope<'m>,
    copy: u32,
    pairs: &'m [Pair<'m>],
) -> Result<Scope<'m>, NoNumber>
    requires { AllPairs (λ one other. one.formal ≢ other.formal) pairs.now }
    ensures scope { IfOk result
        (λ s. s ≡ record { copy = copy; bound = bindings_in caller.now pairs.entry.now }) }
    ensures ok { OnOk result (nets.new
        ≡ (numbered_names caller.now nets.old (actuals_in pairs.entry.now)).nets) }
    ensures fault { IfErr result
        (λ e. IsNoNumber e (numbered_names caller.now nets.old (actuals_in pairs.entry.now)).nets) }
{
    let mut scope: Scope<'m> = Scope::new(alloc, copy);
    for pair in pairs {
        match connect_one(nets, caller, &mut scope, pair) {
            Ok(()) => {}
            Err(stop) => return Err(stop),
        }
    }
    Ok(scope)
}

// Connects the formal of a pair, unless its actual is empty.
fn connect_one<'m>(
    nets: &mut NetList<'m>,
    caller: &Scope<'m>,
    scope: &mut Scope<'m>,
    pair: &'m Pair<'m>,
) -> Result<(), NoNumber>
    requires { has_formal scope.old.bound pair.now.formal ≡ false }
    ensures scope { OnOk result (scope.new ≡ connected caller.now pair.now scope.old) }
    ensures ok { OnOk result (nets.new
        ≡ (numbered_names caller.now nets.old (actuals_in (pair.now ∷ []))).nets) }
    ensures fault { IfErr result
        (λ e. IsNoNumber e (numbered_names caller.now nets.old (actuals_in (pair.now ∷ []))).nets) }
{
    let actual = pair.actual.get();
    if actual.len() > 0 {
        let net = caller.net(actual);
        match nets.number(net) {
            Ok(_) => {
                scope.bind(pair.formal.get(), net)?;
                Ok(())
            }
            Err(stop) => Err(stop),
        }
    } else {
        Ok(())
    }
}
