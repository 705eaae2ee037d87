//! The bytes that lines are written from: for each net one with its values in eight turns.
ghost use Rattle.std.specs.Prelude.{◌≡◌, ◌≢◌, ◌<◌, ◌/◌, ◌%◌, All, length};
ghost use Rattle.ds_slices.specs.Bytes.{AreBytes, AreTurnBytes};
ghost use Rattle.ds_slices.specs.Ready.{AreReady};

use crate::Slices;
use crate::bit::byte_of;
use ds_base::NetId;
use ds_design::Netlist;

/// Makes the bytes of the eight turns in which a turn stands. Where it is not the first of them,
/// they have been made.
pub fn begin_turn(netlist: &Netlist, turn: usize, slices: &mut Slices)
    requires turn { turn < 64 }
    requires ready { AreReady netlist.now slices.old }
    requires made { turn % 8 ≢ 0 → AreTurnBytes netlist.now slices.old (turn / 8) }
    ensures ready { AreReady netlist.now slices.new }
    ensures same { slices.new.words ≡ slices.old.words }
    ensures made { AreTurnBytes netlist.now slices.new (turn / 8) }
{
    if turn % 8 == 0 {
        set_turns(netlist, turn / 8, slices);
    }
}

// Makes the bytes of eight turns.
fn set_turns(netlist: &Netlist, block: usize, slices: &mut Slices)
    requires block { block < 8 }
    requires ready { AreReady netlist.now slices.old }
    ensures ready { AreReady netlist.now slices.new }
    ensures same { slices.new.words ≡ slices.old.words }
    ensures made { AreTurnBytes netlist.now slices.new block }
{
    let design = netlist.design();
    let outputs = design.outputs();
    let words = slices.words.as_slice();
    set_bytes(words, outputs, block, &mut slices.output_bytes);
    let registers = slices.registers.as_slice();
    set_bytes(words, registers, block, &mut slices.register_bytes);
}

// Gives each net its byte.
fn set_bytes(words: &[u64], nets: &[NetId], block: usize, bytes: &mut Vec<u8>)
    requires block { block < 8 }
    requires within { All (λ net. net < length words.now) nets.now }
    requires one_each { length bytes.old.items ≡ length nets.now }
    ensures same { length bytes.new.items ≡ length bytes.old.items }
    ensures set { AreBytes words.now nets.now block bytes.new.items }
{
    fill_bytes(words, nets, block, bytes.as_mut_slice());
}

// The same of a slice.
fn fill_bytes(words: &[u64], nets: &[NetId], block: usize, bytes: &mut [u8])
    requires block { block < 8 }
    requires within { All (λ net. net < length words.now) nets.now }
    requires one_each { length bytes.old ≡ length nets.now }
    ensures same { length bytes.new ≡ length bytes.old }
    ensures set { AreBytes words.now nets.now block bytes.new }
{
    for i in 0..bytes.len() {
        bytes[i] = byte_of(words[nets[i].index()], block);
    }
}
