//! The words of tables and registers, one after another.
ghost use Rattle.std.specs.Prelude.{◌≡◌, ◌≢◌, ◌+◌, ◌<◌, ℕ, All, length, slice_index, slice_set};
ghost use Rattle.ds_base.specs.Values.{AreKnown};
ghost use Rattle.ds_base.specs.declared.value.Value.TheVariants.{Unknown};
ghost use Rattle.ds_cover.specs.Bank.{driven_at};
ghost use Rattle.ds_feedback.specs.Sequence.{IsSequence};
ghost use Rattle.ds_slices.specs.Linked.{AreLinked, LeavesSources, SetsLink};
ghost use Rattle.ds_slices.specs.Picked.{IsPackedWord};
ghost use Rattle.ds_slices.specs.Turns.{IsShifted};

use crate::bit::with_bit;
use crate::table::table_word;
use ds_base::{Row3, Value};
use ds_cover::Bank;
use ds_design::{Netlist, Register};

// Sets the words of all tables and registers, in this order.
pub(crate) fn set_links(
    netlist: &Netlist,
    order: &[u32],
    start: &Row3,
    nets: &mut Row3,
    words: &mut [u64],
)
    requires order { IsSequence netlist.now order.now }
    requires start { length start.now ≡ length netlist.now.registers }
    requires known { AreKnown start.now }
    requires nets { length nets.old ≡ length netlist.now.nets }
    requires words { length words.old ≡ length netlist.now.nets }
    ensures same { length nets.new ≡ length nets.old }
    ensures same_words { length words.new ≡ length words.old }
    ensures linked { AreLinked netlist.now start.now words.new }
    ensures others { LeavesSources netlist.now words.old words.new }
{
    // Read for the facts that it is accepted, and that its numbers name what is there.
    let _design = netlist.design();
    for link in order {
        set_link(netlist, *link as usize, start, nets, words);
    }
}

// Sets the word of a table, or of a register behind the tables.
fn set_link(netlist: &Netlist, link: usize, start: &Row3, nets: &mut Row3, words: &mut [u64])
    requires place { link < length netlist.now.tables + length netlist.now.registers }
    requires start { length start.now ≡ length netlist.now.registers }
    requires known { AreKnown start.now }
    requires nets { length nets.old ≡ length netlist.now.nets }
    requires words { length words.old ≡ length netlist.now.nets }
    ensures same { length nets.new ≡ length nets.old }
    ensures set { SetsLink netlist.now start.now link words.old words.new }
{
    let design = netlist.design();
    let tables = design.tables().len();
    if link < tables {
        set_table(netlist.bank(), link, nets, words);
    } else {
        let register = link - tables;
        set_register(&design.registers()[register], start.value(register), words);
    }
}

// Sets the word of what a table drives.
fn set_table(bank: &Bank, table: usize, nets: &mut Row3, words: &mut [u64])
    requires place { table < length bank.now }
    requires within { All (λ net. net < length words.old) (driven_at bank.now table).cover.inputs }
    requires output { (driven_at bank.now table).output < length words.old }
    requires nets { length nets.old ≡ length words.old }
    ensures same { length nets.new ≡ length nets.old }
    ensures set { (word : ℕ)
        × (words.new ≡ slice_set words.old (driven_at bank.now table).output word)
        × IsPackedWord (driven_at bank.now table).cover words.old word }
{
    let word = table_word(bank, table, words, nets);
    words[bank.quick(table).output.index()] = word;
}

// Sets the word of what a register drives, which has this value before the first turn.
fn set_register(register: &Register, first: Value, words: &mut [u64])
    requires data { register.now.data_net < length words.old }
    requires output { register.now.output < length words.old }
    requires known { first ≢ Unknown }
    ensures set { (word : ℕ) × (words.new ≡ slice_set words.old register.now.output word)
        × IsShifted first (slice_index words.old register.now.data_net) word }
{
    let word = later(words[register.data_net.index()], first);
    words[register.output.index()] = word;
}

// A word one turn later, with this value in front.
fn later(word: u64, first: Value) -> u64
    requires { first ≢ Unknown }
    ensures { IsShifted first word result }
{
    with_bit(word << 1, 0, first)
}
