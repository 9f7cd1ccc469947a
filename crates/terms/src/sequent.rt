use crate::{Fact, Sym};
use c_lang::Pos;
use sqlite_items::Items;

/// What a name stands for: an `int`, a number from 0 to the given one (a pointer to one of that
/// many functions, or null), or an array of the given length with `int` elements.
#[derive(Clone, Copy, Debug, PartialEq, Eq)]
pub enum Sort {
    Whole,
    Code(u32),
    Row(u32),
}

/// What a sequent asks for at its position.
#[derive(Clone, Copy, Debug, PartialEq, Eq)]
pub enum What {
    Assert,
    Overflow,
    Divide,
    Index,
    NullCall,
    Requires,
    Ensures,
    InvariantEntry,
    InvariantKept,
    Initial,
}

/// Where a sequent comes from.
#[derive(Clone, Copy, Debug, PartialEq, Eq)]
pub struct Label {
    pub pos: Pos,
    pub what: What,
}

/// That the goal follows from the hypotheses wherever the names stand for what their sorts allow.
#[derive(Debug, Drop)]
pub struct Sequent {
    pub sorts: Items<(Sym, Sort)>,
    pub hyps: Items<Fact>,
    pub goal: Fact,
    pub label: Label,
}
