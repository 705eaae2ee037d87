//! All tables of a design, packed.
ghost use Rattle.std.specs.Prelude.{◌≡◌, ◌+◌, ◌<◌, ◌≤◌, [], true, length, drop, take, All, IfOk};
ghost use Rattle.std.specs.Prelude.{OnErr, OnOk};
ghost use Rattle.ds_cover.specs.Kept.{IsAdded, IsPrefix, IsQuick};
ghost use Rattle.ds_cover.specs.Packed.{packed_value};
ghost use Rattle.ds_cover.specs.Ternary.{IsWordOf};
ghost use Rattle.ds_cover.specs.Bank.{IsMore, AreNetsWithin, after_table, after_tables, driven_at};

use crate::Table;
use crate::entry::{Quick, TableSpan};
use crate::entry_value::entry_value;
use crate::mask::{Mask, push_rows};
use crate::ternary::word_of;
use crate::truth::quick_of;
use ds_base::{NetId, OutOfMemory, Row3, Value};
use std::alloc::{AllocError, Global};
use std::marker::Model;

/// Packed tables, each with the net that it drives, by their numbers from 0. Contracts see the list
/// of them.
pub struct Bank {
    quicks: Vec<Quick>,
    spans: Vec<TableSpan>,
    inputs: Vec<NetId>,
    masks: Vec<Mask>,
}

impl Drop for Bank {
    fn drop(self) {
        let Bank {
            quicks: _,
            spans: _,
            inputs: _,
            masks: _,
        } = self;
    }
}

impl Model for Bank {
    ghost use Rattle.std.specs.Prelude.{List, map};
    ghost use Rattle.ds_cover.specs.Bank.{Driven};
    ghost use Rattle.ds_cover.specs.Kept.{AreKept, driven_in};

    ghost Value = { List Driven };

    ghost view = { λ b. map (driven_in b.inputs.items b.masks.items) b.spans.items };

    ghost invariant = { λ b. AreKept b.inputs.items b.masks.items b.spans.items b.quicks.items };
}

impl Bank {
    /// Without tables.
    pub fn new(alloc: Global) -> Self
        ensures { result ≡ [] }
    {
        Bank {
            quicks: Vec::new(alloc),
            spans: Vec::new(alloc),
            inputs: Vec::new(alloc),
            masks: Vec::new(alloc),
        }
    }

    /// Adds a table, which drives this net.
    pub fn add(&mut self, table: &Table, output: NetId) -> Result<(), OutOfMemory>
        ensures ok { OnOk result (IsMore self.old table.now output self.new) }
        ensures same { OnErr result (self.new ≡ self.old) }
    {
        self.spans.reserve(1)?;
        self.quicks.reserve(1)?;
        let (span, quick) = add_parts(&mut self.inputs, &mut self.masks, table, output)?;
        self.spans.push_reserved(span);
        self.quicks.push_reserved(quick);
        Ok(())
    }

    /// How many tables there are.
    pub fn len(&self) -> usize
        ensures { result ≡ length self.now }
    {
        self.spans.len()
    }

    /// The value of a table on these nets.
    pub fn value(&self, table: usize, nets: &Row3) -> Value
        requires place { table < length self.now }
        requires within { All (λ net. net < length nets.now)
            (driven_at self.now table).cover.inputs }
        ensures { result ≡ packed_value (driven_at self.now table).cover nets.now }
    {
        self.value_on(table, nets.values())
    }

    /// A table of one to six inputs as one word, where it has so many.
    pub fn quick(&self, table: usize) -> &Quick
        requires { table < length self.now }
        ensures drives { result.now.output ≡ (driven_at self.now table).output }
        ensures quick { result.now.few ≡ true
            → IsQuick result.now (driven_at self.now table).cover }
    {
        &self.quicks[table]
    }

    // The masks of the rows of a table.
    fn masks(&self, table: usize) -> &[Mask]
        requires { table < length self.now }
        ensures { result.now ≡ (driven_at self.now table).cover.masks }
    {
        masks_of(self.masks.as_slice(), &self.spans[table])
    }

    /// The inputs of a table.
    pub fn inputs(&self, table: usize) -> &[NetId]
        requires { table < length self.now }
        ensures { result.now ≡ (driven_at self.now table).cover.inputs }
    {
        inputs_of(self.inputs.as_slice(), &self.spans[table])
    }

    // Whether the rows of a table list where its output is 1.
    fn is_on(&self, table: usize) -> bool
        requires { table < length self.now }
        ensures { result ≡ (driven_at self.now table).cover.on }
    {
        self.spans[table].on
    }

    /// The values of a table of up to three inputs, each a row of one mask, two bits for each of 27
    /// rows of values.
    pub fn word(&self, table: usize) -> u64
        requires { table < length self.now }
        ensures { IsWordOf (driven_at self.now table).cover.masks
            (driven_at self.now table).cover.on result }
    {
        word_of(self.masks(table), self.is_on(table))
    }

    /// Gives the net that a table drives the value of the table.
    pub fn set(&self, table: usize, nets: &mut Row3)
        requires place { table < length self.now }
        requires within { AreNetsWithin (driven_at self.now table) nets.old }
        ensures { nets.new ≡ after_table self.now nets.old table }
    {
        self.put(table, nets.values_mut());
    }

    /// Sets what these tables drive, one after another.
    pub fn set_all(&self, tables: &[u32], nets: &mut Row3)
        requires places { All (λ k. k < length self.now) tables.now }
        requires within { All (λ t. AreNetsWithin t nets.old) self.now }
        ensures { nets.new ≡ after_tables self.now nets.old tables.now }
    {
        self.put_all(tables, nets.values_mut());
    }

    // The same on the values that a row lends.
    fn put_all(&self, tables: &[u32], nets: &mut [Value])
        requires places { All (λ k. k < length self.now) tables.now }
        requires within { All (λ t. AreNetsWithin t nets.old) self.now }
        ensures { nets.new ≡ after_tables self.now nets.old tables.now }
    {
        for k in tables {
            self.put(*k as usize, nets);
        }
    }

    // The same of one table.
    fn put(&self, table: usize, nets: &mut [Value])
        requires place { table < length self.now }
        requires within { AreNetsWithin (driven_at self.now table) nets.old }
        ensures { nets.new ≡ after_table self.now nets.old table }
    {
        let value = self.value_on(table, nets);
        nets[self.quicks[table].output.index()] = value;
    }

    // The value of a table on these.
    fn value_on(&self, table: usize, nets: &[Value]) -> Value
        requires place { table < length self.now }
        requires within { All (λ net. net < length nets.now)
            (driven_at self.now table).cover.inputs }
        ensures { result ≡ packed_value (driven_at self.now table).cover nets.now }
    {
        let quick = &self.quicks[table];
        let span = &self.spans[table];
        entry_value(
            quick,
            span,
            self.inputs.as_slice(),
            self.masks.as_slice(),
            nets,
        )
    }
}

// The inputs of a table that stands there.
fn inputs_of<'a>(inputs: &'a [NetId], span: &TableSpan) -> &'a [NetId]
    requires { span.now.first_input + span.now.inputs ≤ length inputs.now }
    ensures { result.now ≡ take span.now.inputs (drop span.now.first_input inputs.now) }
{
    &inputs[span.first_input..span.first_input + span.inputs]
}

// The masks of a table that stands there.
fn masks_of<'a>(masks: &'a [Mask], span: &TableSpan) -> &'a [Mask]
    requires { span.now.first_mask + span.now.masks ≤ length masks.now }
    ensures { result.now ≡ take span.now.masks (drop span.now.first_mask masks.now) }
{
    &masks[span.first_mask..span.first_mask + span.masks]
}

// Adds the inputs and the masks of a table, and says where they stand. For want of memory some of
// them may stand behind the others, where no table has them.
fn add_parts(
    inputs: &mut Vec<NetId>,
    masks: &mut Vec<Mask>,
    table: &Table,
    output: NetId,
) -> Result<(TableSpan, Quick), AllocError>
    ensures ok { IfOk result (λ entry. IsAdded inputs.old.items masks.old.items table.now output
        inputs.new.items masks.new.items entry.0 entry.1) }
    ensures inputs { OnErr result (IsPrefix inputs.old.items inputs.new.items) }
    ensures masks { OnErr result (IsPrefix masks.old.items masks.new.items) }
{
    let own = table.inputs();
    let first_input = inputs.len();
    let first_mask = masks.len();
    inputs.extend_from_slice(own)?;
    push_rows(masks, own.len(), table.rows())?;
    let own_masks = &masks[first_mask..];
    let quick = quick_of(own, own_masks, table.is_on(), output);
    let span = TableSpan {
        first_input,
        inputs: own.len(),
        first_mask,
        masks: own_masks.len(),
        on: table.is_on(),
        output,
    };
    Ok((span, quick))
}
