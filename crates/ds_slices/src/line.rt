//! The line of a turn, out of bytes.
ghost use Rattle.std.specs.Prelude.{◌≡◌, ◌+◌, ◌<◌, ◌≤◌, ◌^◌, length, map, take, drop};
ghost use Rattle.ds_design.specs.Trace.{trace_line, value_text, values_text};
ghost use Rattle.ds_outside.specs.Pen.{Puts};
ghost use Rattle.ds_slices.specs.Turns.{turn_row};

use crate::Slices;
use crate::bit::bit_character;
use ds_outside::Pen;
use itoa::Buffer;

/// Writes the line of one of the eight turns of the bytes by a pen: its number, the outputs in it,
/// and the registers before it.
pub fn put_turn_line<P: Pen>(slices: &Slices, turn: usize, number: u64, pen: &mut P)
    requires { turn < 8 }
    ensures { Puts (P.writing pen.old) (P.writing pen.new) (trace_line number
        (turn_row slices.now.output_bytes.items turn)
        (turn_row slices.now.register_bytes.items turn)) }
{
    let mut buffer = Buffer::new();
    pen.put(buffer.format(number).as_bytes());
    pen.put(b" ");
    put_bits(slices.output_bytes.as_slice(), turn, pen);
    pen.put(b" ");
    put_bits(slices.register_bytes.as_slice(), turn, pen);
    pen.put(b"\n");
}

// Writes the values in a turn; without any it is `-`.
fn put_bits<P: Pen>(bytes: &[u8], turn: usize, pen: &mut P)
    requires { turn < 8 }
    ensures { Puts (P.writing pen.old) (P.writing pen.new)
        (values_text (turn_row bytes.now turn)) }
{
    if bytes.len() == 0 {
        pen.put(b"-");
        return;
    }
    let mut piece = [0; 64];
    let mut done = 0;
    'writing: while done < bytes.len() {
        let count = (bytes.len() - done).min(64);
        fill(&mut piece[..count], bytes, turn, done);
        pen.put(&piece[..count]);
        done += count;
    }
}

// Fills a piece with the characters of the bytes from a place on.
fn fill(piece: &mut [u8], bytes: &[u8], turn: usize, from: usize)
    requires turn { turn < 8 }
    requires within { from + length piece.old ≤ length bytes.now }
    requires few { from + length piece.old < 2 ^ 64 }
    ensures { piece.new ≡ map value_text
        (take (length piece.old) (drop from (turn_row bytes.now turn))) }
{
    for i in 0..piece.len() {
        piece[i] = bit_character(bytes[from + i], turn);
    }
}
