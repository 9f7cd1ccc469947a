use terms::TermRef;

/// What is left to do for the row of a term's sum.
#[derive(Debug, Drop)]
pub(crate) enum Step<'a> {
    /// The row of a term.
    Term(TermRef<'a>),
    /// An operation on the last rows.
    Apply(Operation),
}

#[derive(Clone, Copy, Debug)]
pub(crate) enum Operation {
    Add,
    Subtract,
    /// The last row less the one before it, and 1.
    Turn,
    Scale(i128),
}
