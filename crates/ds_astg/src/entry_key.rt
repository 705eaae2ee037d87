//! The place for which an entry of the marking stands.
ghost use Rattle.std.specs.Prelude.{◌≡◌, drop, option_map};
ghost use Rattle.ds_astg.specs.Marking.{both_events as both_in, key_between as key_between_in};
ghost use Rattle.ds_astg.specs.Marking.{key_in as key_of_entry};
ghost use Rattle.ds_astg.specs.Keys.{key_of};

use crate::key::Key;
use crate::signals::Signals;
use crate::tokens::behind;
use crate::word::{before, first_byte, last_byte, rest, without_last};

/// The place that `<u,v>` or a name stands for.
pub fn key_in<'a>(signals: &Signals<'a>, text: &'a [u8]) -> Option<Key<'a>>
    ensures { option_map key_of result ≡ key_of_entry signals.now text.now }
{
    if first_byte(text) == b'<' {
        key_between(signals, rest(text))
    } else {
        Some(Key::Named(text))
    }
}

// The place between the events of `u,v>`.
fn key_between<'a>(signals: &Signals<'a>, text: &[u8]) -> Option<Key<'a>>
    ensures { option_map key_of result ≡ key_between_in signals.now text.now }
{
    if last_byte(text) != b'>' {
        return None;
    }
    let source = signals.event(before(text, b','));
    let target = signals.event(without_last(behind(text, b',')));
    both_events(source, target)
}

// The place between two events, where both are there.
fn both_events<'a>(source: Option<u32>, target: Option<u32>) -> Option<Key<'a>>
    ensures { option_map key_of result ≡ both_in source target }
{
    match source {
        None => None,
        Some(from) => match target {
            None => None,
            Some(to) => Some(Key::Between(from, to)),
        },
    }
}
