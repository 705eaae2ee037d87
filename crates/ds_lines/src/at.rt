//! What is wrong with a line.
ghost use Rattle.std.specs.Prelude.{◌≡◌};
ghost use Rattle.ds_lines.specs.First.{refusal_on};

use ds_base::Refusal;

/// What is wrong with a line: its number, from 1, and of what kind it is.
#[derive(Drop, Debug)]
pub struct At<K> {
    pub line: u64,
    pub kind: K,
}

/// The refusal of a text for that of its line of this number.
pub fn on_line<K>(line: u64, refusal: Refusal<K>) -> Refusal<At<K>>
    ensures { result ≡ refusal_on line refusal }
{
    match refusal {
        Refusal::Fault(kind) => Refusal::Fault(At { line, kind }),
        Refusal::Memory => Refusal::Memory,
    }
}
