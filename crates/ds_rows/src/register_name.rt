//! The names of registers.
ghost use Rattle.std.specs.Prelude.{◌<◌, ◌++◌, codes, decimal, length};
ghost use Rattle.ds_outside.specs.Pen.{Puts};
ghost use Rattle.ds_rows.specs.Nets.{net_text, register_of};

use ds_design::{Design, Net};
use ds_outside::Pen;
use itoa::Buffer;

/// Writes the name of a register, by its number: that of the net that it drives, behind the number
/// of its copy where that is not the main model.
pub fn put_register_name<P: Pen>(design: &Design, r: usize, pen: &mut P)
    requires { r < length design.now.registers }
    ensures { Puts (P.writing pen.old) (P.writing pen.new) (register_of design.now r) }
{
    let output = design.registers()[r].output;
    put_net(&design.nets()[output.index()], pen);
}

// Writes a net.
fn put_net<P: Pen>(net: &Net, pen: &mut P)
    ensures { Puts (P.writing pen.old) (P.writing pen.new) (net_text net.now) }
{
    if net.copy == 0 {
        pen.put(net.name.as_slice());
    } else {
        put_copy(net, pen);
    }
}

// Writes a net of a copy, with the number of the copy.
fn put_copy<P: Pen>(net: &Net, pen: &mut P)
    ensures { Puts (P.writing pen.old) (P.writing pen.new)
        (decimal net.now.copy ++ codes "/" ++ net.now.name) }
{
    let mut buffer = Buffer::new();
    pen.put(buffer.format(net.copy).as_bytes());
    pen.put(b"/");
    pen.put(net.name.as_slice());
}
