//! Cutting an input into tasks: a text into pieces that end at boundaries, and a number of items into spans.
//!
//! Pieces and spans are seen as a list of pairs of a start and an end. A text is cut near each multiple of a step, moved forward to the
//! first place that no word, or no line, goes over; only the bytes near a cut are read. Spans are cut at the multiples themselves.
//!
//! Its promise: the items that begin in the pieces, or that stand in the spans, joined in order, are the items of the whole input.
#![tactic(auto)]

mod boundary;
mod cutting;
mod part;

pub use boundary::Boundary;
pub use cutting::{pieces, spans};
pub use part::{Piece, Pieces, Span, Spans};
