//! The head of a model.
ghost use Rattle.std.specs.Prelude.{◌≡◌, ◌++◌, ◌∷◌, [], None, MatchResult};
ghost use Rattle.ds_base.specs.Refusal.{TellsFault};
ghost use Rattle.ds_lines.specs.Words.{texts, word_at};
ghost use Rattle.ds_blif.specs.Fault.{model_fault};

use crate::fault::BlifKind;
use ds_base::Refusal;
use ds_lines::{Names, name, word};
use std::alloc::Global;

/// Adds the name of this model's head to the names of the models.
pub fn add_model<'a>(
    alloc: Global,
    names: &mut Names<'a>,
    words: &[&'a [u8]],
) -> Result<(), Refusal<BlifKind>>
    ensures { MatchResult result
        (λ _. (model_fault names.old (texts words.now) ≡ None) × (names.new ≡ names.old ++ word_at
        (texts words.now) 1 ∷ []))
        (λ e. TellsFault e (model_fault names.old (texts words.now))) }
{
    if words.len() != 2 {
        return Err(Refusal::Fault(BlifKind::BadWords));
    }
    let (_, added) = names.insert(word(words, 1))?;
    if added {
        Ok(())
    } else {
        let repeated = name(alloc, word(words, 1))?;
        Err(Refusal::Fault(BlifKind::RepeatedModel(repeated)))
    }
}
