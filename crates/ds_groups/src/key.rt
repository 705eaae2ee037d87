//! The key by which a net is found.
ghost use Rattle.std.specs.Prelude.{◌≡◌};
ghost use Rattle.ds_groups.specs.Keys.{net_of_key};

use ds_design::Net;

/// The copy of a model, and a name there.
#[derive(Clone, Copy, PartialEq, Eq, Hash)]
pub struct Key<'a> {
    pub copy: u32,
    pub name: &'a [u8],
}

/// The key of a net.
pub(crate) fn key_of(net: &Net) -> Key<'_>
    ensures { net_of_key result ≡ net.now }
{
    Key {
        copy: net.copy,
        name: net.name.as_slice(),
    }
}
