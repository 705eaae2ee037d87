//! What a node has stored.
ghost use Rattle.std.specs.Prelude.{◌≡◌, ◌+◌, ◌≤◌, [], ◌++◌, IfOk, length, vec_len, vec_capacity};

use ds_base::{OutOfMemory, Row3, Value};
use std::alloc::Global;
use std::marker::Model;

// Rows of values, one after the other, with room for so many values.
#[derive(Drop)]
pub(crate) struct StoredRows {
    values: Vec<Value>,
    room: usize,
}

impl Model for StoredRows {
    ghost use Rattle.std.specs.Prelude.{◌≤◌, vec_capacity};
    ghost use Rattle.ds_fire.specs.StoredRows.{Stored};

    ghost Value = { Stored };

    ghost view = { λ h. record { values = h.values.items; room = h.room } };

    ghost invariant = { λ h. h.room ≤ vec_capacity h.values };
}

impl StoredRows {
    // Empty, with room for so many values.
    pub(crate) fn with_room(alloc: Global, room: usize) -> Result<Self, OutOfMemory>
        ensures { IfOk result (λ h. h ≡ record { values = []; room = room }) }
    {
        Ok(StoredRows {
            values: Vec::with_capacity(alloc, room)?,
            room,
        })
    }

    // The values of all rows.
    pub(crate) fn values(&self) -> &[Value]
        ensures { result.now ≡ self.now.values }
    {
        self.values.as_slice()
    }

    // One row more, without memory.
    pub(crate) fn append(&mut self, row: &Row3)
        requires { length self.old.values + length row.now ≤ self.old.room }
        ensures { self.new ≡ record { values = self.old.values ++ row.now; room = self.old.room } }
    {
        push_all(&mut self.values, row);
    }
}

// The values of a row at the end.
fn push_all(values: &mut Vec<Value>, row: &Row3)
    requires { vec_len values.old + length row.now ≤ vec_capacity values.old }
    ensures items { values.new.items ≡ values.old.items ++ row.now }
    ensures room { vec_capacity values.old ≤ vec_capacity values.new }
{
    for i in 0..row.len() {
        let _ = values.push(row.value(i));
    }
}
