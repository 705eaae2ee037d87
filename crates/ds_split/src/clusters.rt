ghost use Rattle.std.specs.Prelude.{◌≡◌};

use ds_base::{RegId, Seq};
use std::marker::Model;

/// Registers in clusters. Contracts see the list of the clusters, each the list of its registers.
#[derive(Drop)]
pub struct Clusters {
    members: Seq<Seq<RegId>>,
}

impl Model for Clusters {
    ghost use Rattle.std.specs.Prelude.{List, ℕ};

    ghost Value = { List (List ℕ) };

    ghost view = { λ c. c.members };
}

impl Clusters {
    /// Of the registers of each cluster.
    pub fn of(members: Seq<Seq<RegId>>) -> Self
        ensures { result ≡ members }
    {
        Clusters { members }
    }

    /// The registers of each cluster.
    pub fn members(&self) -> &[Seq<RegId>]
        ensures { result.now ≡ self.now }
    {
        self.members.as_slice()
    }
}
