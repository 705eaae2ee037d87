//! What a text is written by, piece by piece.
ghost use Rattle.ds_outside.specs.Pen.{Puts, Writing};

/// Writes a text piece by piece. Behind a write that has failed nothing more is written, and the
/// pen's `finish` says so; so what writes a part of a text takes a pen and answers nothing.
pub trait Pen {
    /// How far the text is.
    ghost writing: { Self → Writing };

    /// Writes a piece.
    fn put(&mut self, piece: &[u8])
        ensures { Puts (writing self.old) (writing self.new) piece.now };
}
