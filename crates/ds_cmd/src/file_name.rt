ghost use Rattle.std.specs.Prelude.{◌≡◌, IfOk};

use ds_base::OutOfMemory;
use std::alloc::Global;
use std::marker::Model;

/// The name of a file, as it stands among the words. It may be empty, and may be `-`. Contracts
/// see its bytes.
#[derive(Drop)]
pub struct FileName {
    text: String,
}

impl Model for FileName {
    ghost use Rattle.std.specs.Prelude.{ℕ, List, string_bytes};

    ghost Value = { List ℕ };

    ghost view = { λ name. string_bytes name.text };
}

impl FileName {
    /// A copy of a word.
    pub fn new(alloc: Global, word: &str) -> Result<Self, OutOfMemory>
        ensures { IfOk result (λ name. name ≡ word.now) }
    {
        Ok(FileName {
            text: String::from_str(alloc, word)?,
        })
    }

    /// The word.
    pub fn as_str(&self) -> &str
        ensures { result.now ≡ self.now }
    {
        self.text.as_str()
    }
}
