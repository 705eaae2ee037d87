//! What tells a place from others.
ghost use Rattle.std.specs.Prelude.{◌≡◌};
ghost use Rattle.ds_astg.specs.Keys.{key_of};
ghost use Rattle.ds_astg.specs.Place.{name_of as name_of_key};

/// The name of a place, or the two events between which it stands.
#[derive(Clone, Copy, PartialEq, Eq, Hash)]
pub enum Key<'a> {
    Named(&'a [u8]),
    Between(u32, u32),
}

/// The name, empty where there is none.
pub fn name_of<'a>(key: Key<'a>) -> &'a [u8]
    ensures { result.now ≡ name_of_key (key_of key.entry) }
{
    match key {
        Key::Named(name) => name,
        Key::Between(_, _) => &[],
    }
}
