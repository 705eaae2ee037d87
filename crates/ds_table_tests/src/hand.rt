//! What one thread of the tests works with, and what it does.
ghost use Rattle.std.specs.Prelude.{◌≡◌, ◌<◌, ◌≤◌, ◌+◌, ℕ, [], IfOk, OnOk, IfNone};
ghost use Rattle.std.specs.Prelude.{vec_capacity};
ghost use mathlib.Core.Option.{some};
ghost use lib.ListN.{get_elem?};
ghost use Rattle.ds_rule.specs.Rule.{seen};
ghost use Rattle.ds_fabric.specs.Showing.{Showing};
ghost use Rattle.ds_runner.specs.TurnstileRule.{base};
ghost use Rattle.ds_runner.specs.Shown.{Misses};
ghost use Rattle.ds_table_tests.specs.Trio.{AreTrio, IsTrioStile, IsIdle, IsFresh};

use crate::trio::Trio;
use ds_base::{LatchId, OutOfMemory, Scratch};
use ds_fabric::{Fabric, Pass};
use ds_runner::{Turn, Turnstile};
use std::alloc::Global;

/// A turn, and a scratch to work in.
#[derive(Drop)]
pub struct Hand {
    pub turn: Turn,
    pub scratch: Scratch,
}

/// The turnstile of these passes, and two hands.
pub fn set_up(
    alloc: Global,
    fabric: &Fabric<Trio, Trio>,
    passes: &mut Vec<Pass>,
) -> Result<(Turnstile, Hand, Hand), OutOfMemory>
    requires trio { AreTrio fabric.now passes.old.items × (base 0 passes.old.items ≡ 0) }
    requires room { 3 ≤ vec_capacity passes.old }

    ensures ok { IfOk result (λ r. IsTrioStile fabric.now r.0
        × IsIdle fabric.now r.0 r.1.turn r.1.scratch × IsIdle fabric.now r.0 r.2.turn r.2.scratch) }
    ensures fresh { IfOk result (λ r. IsFresh r.1.turn.view × IsFresh r.2.turn.view) }
    ensures none { OnOk result (passes.new.items ≡ []) }
    ensures room { vec_capacity passes.new ≡ vec_capacity passes.old }
{
    let scratch = fabric.scratch(alloc)?;
    let spare = fabric.scratch(alloc)?;
    let (stile, mut turn) = Turnstile::build(alloc, passes, 2)?;
    let other = stile.split(&mut turn);
    let one = Hand { turn, scratch };
    let two = Hand {
        turn: other,
        scratch: spare,
    };
    Ok((stile, one, two))
}

/// Takes the pass of the node, steps it so often, and puts it back: how often the node has fired
/// then; none where the pass is out.
pub fn fires(
    fabric: &Fabric<Trio, Trio>,
    stile: &Turnstile,
    hand: &mut Hand,
    node: u32,
    times: u32,
) -> Option<u64>
    requires stile { IsTrioStile fabric.now stile.now × (node < 3) }
    requires idle { IsIdle fabric.now stile.now hand.old.turn hand.old.scratch }

    ensures idle { IsIdle fabric.now stile.now hand.new.turn hand.new.scratch }
    ensures missed { IfNone result (Misses hand.old.turn.view hand.new.turn.view node) }
{
    let node = LatchId::new(node);
    let Some(mut pass) = stile.take(&mut hand.turn, node) else {
        return None;
    };
    for _ in 0..times {
        fabric.step_in(&mut pass, node, &mut hand.scratch);
    }
    let fired = pass.fired(node);
    stile.give(&mut hand.turn, node, pass);
    Some(fired)
}

/// Ends the turnstile: how often each node has fired, in order. Their sum is what the hands made.
pub fn shut(
    fabric: &Fabric<Trio, Trio>,
    stile: Turnstile,
    one: Hand,
    two: Hand,
    passes: &mut Vec<Pass>,
) -> (u64, u64, u64)
    requires stile { IsTrioStile fabric.now stile }
    requires idle { IsIdle fabric.now stile one.turn one.scratch
        × IsIdle fabric.now stile two.turn two.scratch }
    requires room { (passes.old.items ≡ []) × (3 ≤ vec_capacity passes.old) }

    ensures back { AreTrio fabric.now passes.new.items }
    ensures made { result.0 + result.1 + result.2 ≡ one.turn.view.made + two.turn.view.made }
{
    let Hand {
        mut turn,
        scratch: _,
    } = one;
    let Hand {
        turn: other,
        scratch: _,
    } = two;
    stile.join(&mut turn, other);
    stile.close(turn, passes);
    all_fired(fabric, passes)
}

// How often each node has fired, by the pass in its place.
fn all_fired(fabric: &Fabric<Trio, Trio>, passes: &Vec<Pass>) -> (u64, u64, u64)
    requires { AreTrio fabric.now passes.now.items }
    ensures { result.0 + result.1 + result.2 ≡ base 0 passes.now.items }
{
    (
        fired(fabric, passes, 0),
        fired(fabric, passes, 1),
        fired(fabric, passes, 2),
    )
}

// How often one of them has.
fn fired(fabric: &Fabric<Trio, Trio>, passes: &Vec<Pass>, node: u32) -> u64
    requires trio { AreTrio fabric.now passes.now.items }
    requires node { node < 3 }
    ensures { (p : Showing) → get_elem? passes.now.items node ≡ some p
        → result ≡ seen p.view node }
{
    passes[node as usize].fired(LatchId::new(node))
}
