ghost use Rattle.std.specs.Prelude.{◌≡◌, ◌-◌, ◌<◌, ◌≤◌, length, min, MatchOption};
ghost use Rattle.ds_outside.specs.Held.{absent, bytes, ReadsFrom};
ghost use Rattle.ds_outside.specs.Memory.{held_in};

use ds_base::{Name, Seq};

/// A name and what stands under it.
#[derive(Drop)]
pub struct Entry {
    pub name: Name,
    pub content: Seq<u8>,
}

// The bytes of the first entry with this name.
pub(crate) fn find<'a>(entries: &'a [Entry], name: &str) -> Option<&'a [u8]>
    ensures { MatchOption result (held_in entries.now name.now ≡ absent)
        (λ b. held_in entries.now name.now ≡ bytes b.now) }
{
    for entry in entries {
        if entry.name.as_slice() == name.as_bytes() {
            return Some(entry.content.as_slice());
        }
    }
    None
}

// Copies bytes from a place on, as many as there are, fit and may be given at once.
pub(crate) fn copy_from(held: &[u8], at: usize, most: usize, into: &mut [u8]) -> usize
    requires { 0 < most }
    ensures within { result ≤ length into.old }
    ensures copied { ReadsFrom held.now at result into.old into.new }
{
    if at >= held.len() {
        return 0;
    }
    let n = (held.len() - at).min(into.len()).min(most);
    into[..n].copy_from_slice(&held[at..at + n]);
    n
}
