//! The bus of a net: its name without its place in the bus.
ghost use Rattle.std.specs.Prelude.{◌≡◌, ◌<◌, ◌≤◌, length, slice_index_or};
ghost use Rattle.std.specs.List.{prefix_len};
ghost use Rattle.std.specs.Char.{is_ascii_digit};
ghost use Rattle.ds_split.specs.Bus.{bus_name as front_of, is_index as ends_name};
ghost use Rattle.ds_split.specs.Cluster.{bus_of_net, no_net};
ghost use Rattle.ds_split.specs.Keys.{net_of_bus};

use ds_design::{Net, Register};

/// A copy of a model, and a name there without a trailing `[digits]`.
#[derive(Clone, Copy, PartialEq, Eq, Hash)]
pub struct Bus<'a> {
    pub copy: u32,
    pub name: &'a [u8],
}

// The bus that a register drives.
pub(crate) fn bus_of<'a>(nets: &'a [Net], register: &Register) -> Bus<'a>
    requires { register.now.output < length nets.now }
    ensures { net_of_bus result ≡ bus_of_net (slice_index_or nets.now register.now.output no_net) }
{
    let net = &nets[register.output.index()];
    Bus {
        copy: net.copy,
        name: bus_name(net.name.as_slice()),
    }
}

// A name without its trailing `[digits]`, where it has one.
fn bus_name(name: &[u8]) -> &[u8]
    ensures { result.now ≡ front_of name.now }
{
    for (i, byte) in name.iter().enumerate() {
        if *byte == b'[' && is_index(&name[i + 1..]) {
            return &name[..i];
        }
    }
    name
}

// Whether a text is one digit or more and then a `]`.
fn is_index(text: &[u8]) -> bool
    ensures { result ≡ ends_name text.now }
{
    let digits = leading_digits(text);
    if digits == 0 {
        return false;
    }
    &text[digits..] == b"]".as_slice()
}

// How many digits a text begins with.
fn leading_digits(text: &[u8]) -> usize
    ensures value { result ≡ prefix_len is_ascii_digit text.now }
    ensures within { result ≤ length text.now }
{
    for (i, byte) in text.iter().enumerate() {
        if !byte.is_ascii_digit() {
            return i;
        }
    }
    text.len()
}
