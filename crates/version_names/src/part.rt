//! Versions, and where their names stand.

/// The two versions of a program.
#[derive(Clone, Copy, Debug, PartialEq, Eq)]
pub enum Version {
    Old,
    New,
}

/// Where a name of a version stands: in both versions alike, or in one of them alone.
#[derive(Clone, Copy, Debug, PartialEq, Eq)]
pub enum Part {
    Both,
    Old,
    New,
}

/// What a name is of: a global's cell, or a function's code.
#[derive(Clone, Copy, Debug, PartialEq, Eq)]
pub enum Sort2 {
    Cell,
    Code,
}

/// Where a name of the merged program comes from: a cell of both versions, the wrapper of a function
/// of both, one version, the transformer, or the client.
#[derive(Clone, Copy, Debug, PartialEq, Eq)]
pub enum Origin {
    Both,
    Any,
    Old,
    New,
    Xform,
    Client,
}
