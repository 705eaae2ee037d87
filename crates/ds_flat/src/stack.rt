//! The copies that are being taken, below the innermost.
ghost use Rattle.std.specs.Prelude.{◌≡◌, ◌<◌, ◌^◌, ◌==◌, ◌∷◌, [], length, reverse, IfOk, IfSome};
ghost use Rattle.std.specs.Prelude.{IfNone, MatchOption};
ghost use Rattle.std.specs.List.{list_any};
ghost use Rattle.ds_flat.specs.Stack.{names_of, path_of, put_on};
ghost use Rattle.ds_flat.specs.Copies.{path_from as path_from_of};
ghost use Rattle.ds_flat.specs.Run.{path_with};

use crate::frame::Open;
use ds_base::{Name, OutOfMemory, Seq};
use std::alloc::Global;
use std::marker::Model;

/// Copies that wait for one in them, and for each model how many of its copies they are.
pub struct Stack<'b, 'm> {
    frames: Vec<Open<'b, 'm>>,
    counts: Vec<usize>,
}

impl Drop for Stack<'_, '_> {
    fn drop(self) {
        let Stack {
            frames: _,
            counts: _,
        } = self;
    }
}

impl<'b, 'm> Model for Stack<'b, 'm> {
    ghost use Rattle.std.specs.Prelude.{reverse, map, length};
    ghost use Rattle.ds_flat.specs.Stack.{Stacked, frames_of, AreCounts};

    ghost Value = { Stacked };

    ghost view = { λ s. record {
      frames = frames_of (reverse s.frames.items);
      places = map (λ f. f.model) (reverse s.frames.items);
      models = length s.counts.items;
    } };

    ghost invariant = { λ s. AreCounts s.counts.items
        (map (λ f. f.model) (reverse s.frames.items)) };
}

impl<'b, 'm> Stack<'b, 'm> {
    /// Without copies, for so many models.
    pub fn new(alloc: Global, models: usize) -> Result<Self, OutOfMemory>
        ensures { IfOk result (λ s. s ≡ record { frames = []; places = []; models = models }) }
    {
        let counts: Vec<usize> = vec![in alloc; 0; models]?;
        Ok(Stack {
            frames: Vec::new(alloc),
            counts,
        })
    }

    /// With a copy on top.
    pub fn pushed(self, top: Open<'b, 'm>) -> Result<Self, OutOfMemory>
        requires known { top.model < self.models }
        requires few { length self.places < 2 ^ 32 }
        ensures { IfOk result (λ s. s ≡ put_on top.entry self.entry) }
    {
        let Stack {
            mut frames,
            mut counts,
        } = self;
        let place = top.model;
        frames.push(top)?;
        counts[place] += 1;
        Ok(Stack { frames, counts })
    }

    /// The copy on top and the others, where there is one.
    pub fn popped(self) -> Option<(Open<'b, 'm>, Self)>
        ensures some { IfSome result (λ r. self.entry ≡ put_on r.0 r.1) }
        ensures none { IfNone result (self.entry.frames ≡ []) }
    {
        let Stack {
            mut frames,
            mut counts,
        } = self;
        match frames.pop() {
            Some(top) => {
                counts[top.model] -= 1;
                Some((top, Stack { frames, counts }))
            }
            None => None,
        }
    }

    /// Whether a copy of the model at a place is among them.
    pub fn has(&self, place: usize) -> bool
        requires { place < self.now.models }
        ensures { result ≡ list_any (λ other. other == place) self.now.places }
    {
        self.counts[place] > 0
    }

    /// The names of the models from the innermost copy of this one on, the outermost first.
    pub fn path_from(&self, alloc: Global, name: &[u8]) -> Result<Vec<Name>, OutOfMemory>
        ensures { IfOk result (λ p. p.items ≡ path_from_of name.now (path_of self.now.frames)) }
    {
        path_in(alloc, &self.frames, name)
    }
}

fn path_in(alloc: Global, frames: &[Open<'_, '_>], name: &[u8]) -> Result<Vec<Name>, OutOfMemory>
    ensures { IfOk result (λ p. p.items ≡ path_from_of name.now (names_of (reverse frames.now))) }
{
    let mut path = Vec::new(alloc);
    for frame in frames {
        path = extended(alloc, path, name, frame.name)?;
    }
    Ok(path)
}

/// The part of a path with one more model, the innermost.
pub fn extended(
    alloc: Global,
    path: Vec<Name>,
    name: &[u8],
    model: &[u8],
) -> Result<Vec<Name>, OutOfMemory>
    ensures { IfOk result (λ p. p.items ≡ path_with name.now model.now path.items) }
{
    let mut path = path;
    if name == model {
        path = Vec::new(alloc);
    }
    let bytes = model.to_vec(alloc)?;
    path.push(Seq::of(bytes))?;
    Ok(path)
}
