//! The vectors of a run, all of one width.
ghost use Rattle.std.specs.Prelude.{◌≡◌, ◌<◌, ◌≤◌, ℕ, All, length, List, slice_index_or, []};
ghost use Rattle.ds_base.specs.Limit.{most_of};
ghost use Rattle.ds_base.specs.declared.number.Limit.TheVariants.{Vectors as VectorLimit};
ghost use Rattle.ds_design.specs.Rows.{AreVectors, Rows};

use ds_base::{Row3, Seq};
use std::marker::Model;

/// Rows of one width, at most 65,536 of them: a vector for each turn.
#[derive(Drop)]
pub struct Vectors {
    width: usize,
    rows: Seq<Row3>,
}

impl Model for Vectors {
    ghost use Rattle.ds_design.specs.Rows.{AreVectors, Rows};

    ghost Value = { Rows };

    ghost view = { λ v. record { width = v.width; rows = v.rows } };

    ghost invariant = { λ v. AreVectors (record { width = v.width; rows = v.rows }) };
}

impl Vectors {
    /// Of rows of one width.
    pub fn of(width: usize, rows: Seq<Row3>) -> Self
        requires { AreVectors (record { width = width; rows = rows }) }
        ensures { result ≡ record { width = width; rows = rows } }
    {
        Vectors { width, rows }
    }

    /// How many values a row has.
    pub fn width(&self) -> usize
        ensures { result ≡ self.now.width }
    {
        self.width
    }

    /// How many rows there are.
    pub fn count(&self) -> usize
        ensures value { result ≡ length self.now.rows }
        ensures few { result ≤ most_of VectorLimit }
        ensures kept { AreVectors self.now }
    {
        self.rows.as_slice().len()
    }

    /// The row of a turn, from 0.
    pub fn row(&self, k: usize) -> &Row3
        requires { k < length self.now.rows }
        ensures row { result.now ≡ slice_index_or self.now.rows k [] }
        ensures width { length result.now ≡ self.now.width }
    {
        &self.rows.as_slice()[k]
    }
}
