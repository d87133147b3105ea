// Ported from rart 0.11.0 (Apache-2.0), and rewritten.

/// What a visitor's closure answers of each value.
#[derive(Clone, Copy, PartialEq, Eq)]
pub enum VisitControl {
    /// The visit goes on to the next value.
    Continue,
    /// The visit ends behind this value.
    Stop,
}
