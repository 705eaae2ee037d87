//! Sums of texts.
ghost use Rattle.std.specs.Prelude.{◌≡◌};
ghost use Rattle.ds_demo.specs.Fold.{Folded, nothing, fold_after};

use std::marker::Model;

/// The sum of the bytes that were added, each times its place counted from 1. Both wrap at 2 ^ 64.
#[derive(Drop)]
pub struct Fold {
    sum: u64,
    place: u64,
}

impl Model for Fold {
    ghost use Rattle.ds_demo.specs.Fold.{Folded};

    ghost Value = { Folded };

    ghost view = { λ f. record { sum = f.sum; place = f.place } };
}

impl Fold {
    /// Of no bytes.
    pub fn new() -> Self
        ensures { result ≡ nothing }
    {
        Fold { sum: 0, place: 0 }
    }

    /// Adds bytes, which stand after those before.
    #[tactic(auto, unfolding(crate::specs::Fold::fold_after))]
    pub fn add(&mut self, bytes: &[u8])
        ensures { self.new ≡ fold_after self.old bytes.now }
    {
        for byte in bytes {
            self.place = self.place.wrapping_add(1);
            let product = u64::from(*byte).wrapping_mul(self.place);
            self.sum = self.sum.wrapping_add(product);
        }
    }

    /// The sum so far.
    pub fn sum(&self) -> u64
        ensures { result ≡ self.now.sum }
    {
        self.sum
    }
}
