//! Orders with one token at most: a walk that gives such a one gives the order too.
ghost use Rattle.std.specs.Prelude.{◌≡◌, map, IfOk};
ghost use Rattle.ds_accept.specs.Given.{capped};

use ds_marked::Arc;
use std::alloc::{AllocError, Global};

// The orders, each with one token at most.
pub(crate) fn capped_orders(alloc: Global, asked: &[Arc]) -> Result<Vec<Arc>, AllocError>
    ensures { IfOk result (λ few. few.items ≡ map capped asked.now) }
{
    let mut few: Vec<Arc> = Vec::new(alloc);
    for order in asked {
        few.push(capped_order(order))?;
    }
    Ok(few)
}

fn capped_order(order: &Arc) -> Arc
    ensures { result ≡ capped order.now }
{
    Arc {
        source: order.source,
        target: order.target,
        tokens: order.tokens.min(1),
    }
}
