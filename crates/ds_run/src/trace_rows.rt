//! The rows that a line of a trace is written from.
ghost use Rattle.std.specs.Prelude.{◌≡◌, ◌<◌, ◌+◌, All, length, slice_index, IfOk};
ghost use Rattle.ds_base.specs.Values.{Row};
ghost use Rattle.ds_base.specs.Word.{number_of_values};
ghost use Rattle.ds_cover.specs.Cover.{values_at};
ghost use Rattle.ds_opening.specs.Packed.{Learns};
ghost use Rattle.ds_rule.specs.Run.{closing};
ghost use Rattle.ds_rule.specs.Rule.{tickets};
ghost use Rattle.ds_rule.specs.Words.{node_values};
ghost use Rattle.ds_run.specs.Finished.{HasSlaves};
ghost use Rattle.ds_run.specs.TraceRows.{HasLine, IsGathered};

use ds_base::{LatchId, OutOfMemory, RegId, Row3, Value, words_of};
use ds_fabric::Record;
use ds_latch::{Latches, Node};
use std::alloc::Global;

// The values by their two bits. No value has both bits set.
const VALUES: [Value; 4] = [Value::Zero, Value::One, Value::Unknown, Value::Unknown];

/// The rows of a line.
#[derive(Drop)]
pub struct TraceRows {
    /// The outputs in a turn.
    pub outputs: Row3,
    /// The registers before it.
    pub registers: Row3,
}

impl TraceRows {
    /// The registers as they are at first.
    pub fn of(alloc: Global, latches: &Latches<'_>) -> Result<Self, OutOfMemory>
        ensures { IfOk result
            (λ line. HasLine latches.now line × (line.registers ≡ latches.now.initial)) }
    {
        let design = latches.netlist().design();
        let mut registers = Row3::with_len(alloc, design.registers().len())?;
        registers.copy_from(latches.initial());
        Ok(TraceRows {
            outputs: Row3::with_len(alloc, design.outputs().len())?,
            registers,
        })
    }
}

/// The registers after a turn, from what the slaves have stored in it.
pub fn copy_stored(latches: &Latches<'_>, recorded: &Record, k: usize, line: &mut TraceRows)
    requires rows { HasSlaves latches.now (k + 1) recorded.now }
    requires line { HasLine latches.now line.old }
    ensures gathered { IsGathered latches.now recorded.now.shown.view.run k line.new.registers }
    ensures line { HasLine latches.now line.new }
    ensures same { line.new.outputs ≡ line.old.outputs }
{
    // The edges are read for the fact that nodes are few, so that a number of one fits.
    let (_edges, clusters) = (latches.edges(), latches.clusters());
    for i in 0..clusters.len() {
        let slave = Node::Slave(i as u32).latch();
        spread_row(
            recorded,
            slave,
            k,
            clusters[i].as_slice(),
            line.registers.values_mut(),
        );
    }
}

// Each value of the row that a slave has stored goes to its register, a word at a time.
fn spread_row(
    recorded: &Record,
    slave: LatchId,
    k: usize,
    members: &[RegId],
    registers: &mut [Value],
)
    requires near { slave < recorded.now.shown.view.run.design_nodes }
    requires stored { k < length (tickets recorded.now.shown.view (closing slave)) }
    requires wide { slice_index recorded.now.shown.view.run.lengths slave ≡ length members.now }
    requires within { All (λ r. r < length registers.old) members.now }
    ensures value { (row : Row)
        → values_at row members.now ≡ node_values recorded.now.shown.view.run slave (k + 1)
        → Learns row members.now registers.old registers.new }
    ensures same { length registers.new ≡ length registers.old }
{
    let mut rest = members;
    for i in 0..words_of(members.len()) {
        let (these, others) = rest.split_at(rest.len().min(32));
        spread_word(recorded.word(slave, k, i), these, registers);
        rest = others;
    }
}

// Each value of a word goes to its register.
fn spread_word(word: u64, members: &[RegId], registers: &mut [Value])
    requires within { All (λ r. r < length registers.old) members.now }
    ensures value { (row : Row) → word ≡ number_of_values (values_at row members.now)
        → Learns row members.now registers.old registers.new }
    ensures same { length registers.new ≡ length registers.old }
{
    let mut rest = word;
    for register in members {
        let place = register.index();
        let value = VALUES[(rest % 4) as usize];
        registers[place] = value;
        rest /= 4;
    }
}
