use c_lang::Stmt;
use loop_invariants::Facts;
use sqlite_items::Items;
use terms::Sym;

/// A statement with what its conditions need: a loop's invariants, and the fresh names that a loop, a call, an input
/// or a choice gives. Where a statement has no such parts, the fields are empty.
#[derive(Debug, Drop)]
pub struct Annotated<'p> {
    pub stmt: &'p Stmt,
    /// What runs where an `if`'s condition holds, or a loop's body.
    pub first: Items<Annotated<'p>>,
    /// What runs where an `if`'s condition doesn't hold.
    pub second: Items<Annotated<'p>>,
    pub invariants: Facts<'p>,
    /// The fresh name of a call's result, if it has one.
    pub outcome: Items<Sym>,
    /// The fresh names of what the statement changes, a call's result aside.
    pub fresh: Items<Sym>,
}
