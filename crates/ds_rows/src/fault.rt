//! Why vectors are refused.
use ds_base::{Limit, Refusal};
use ds_lines::At;

/// What is wrong with a line of vectors.
#[derive(Clone, Copy, Debug, PartialEq, Eq)]
pub enum VectorKind {
    /// As many vectors as there may be stand before it.
    TooMany(Limit),
    /// It is not one word of the wanted length; for width 0, not the word `-`.
    BadWidth,
    /// A character is none of `0`, `1` and `x`.
    BadBit,
}

/// The first fault of a text.
pub type VectorFault = At<VectorKind>;

/// Why vectors are not read: their first fault, or want of memory.
pub type VectorRefusal = Refusal<VectorFault>;
