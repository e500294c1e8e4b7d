//! Where the records of each kind stand in the file.

/// The records from one place to before another.
#[derive(Clone, Copy, PartialEq, Eq, Debug)]
pub struct Span {
    pub first: usize,
    pub past: usize,
}

/// Where the records of each kind stand that others refer to or sum over.
#[derive(Clone, Copy, PartialEq, Eq, Debug)]
pub struct Kinds {
    pub nodes: Span,
    pub lines: Span,
    pub offers: Span,
    pub bids: Span,
    pub regulations: Span,
}
