use c_lang::Name;
use sqlite_items::Items;
use terms::Fact;

/// A fact, and the name that its `forall` has in the text. The fact itself binds `$` in its place.
#[derive(Debug)]
pub struct Quantified {
    pub name: Option<Name>,
    pub fact: Fact,
}

// By hand, so that a proof has one step for each that is dropped.
impl Drop for Quantified {
    fn drop(self) {
        let Quantified {
            name: _name,
            fact: _fact,
        } = self;
    }
}

/// What a clause says: what a function asks of its callers, what it promises them, which globals it may
/// change, or what holds whenever a loop's condition is read.
#[derive(Debug, Drop)]
pub enum ClauseKind {
    Requires(Quantified),
    Ensures(Quantified),
    Assigns(Items<Name>),
    Invariant(Quantified),
}

/// A clause, and the line on which it begins.
#[derive(Debug)]
pub struct Clause {
    pub line: u32,
    pub kind: ClauseKind,
}

// By hand, so that a proof has one step for each that is dropped.
impl Drop for Clause {
    fn drop(self) {
        let Clause {
            line: _line,
            kind: _kind,
        } = self;
    }
}

/// What an item speaks of: the functions that both versions have under a name, a function of the merged
/// program, or a loop of it, by its number in the function.
#[derive(Debug, Drop)]
pub enum Head {
    Both(Name),
    At(Name),
    Loop(Name, u32),
}

/// An item: what it speaks of, the line on which it begins, and its clauses in the order of the text.
#[derive(Debug)]
pub struct Item {
    pub head: Head,
    pub line: u32,
    pub clauses: Items<Clause>,
}

// By hand, so that a proof has one step for each that is dropped.
impl Drop for Item {
    fn drop(self) {
        let Item {
            head: _head,
            line: _line,
            clauses: _clauses,
        } = self;
    }
}

/// The beginning of an item with its line, or a clause.
#[derive(Debug, Drop)]
pub enum Statement {
    Begins(u32, Head),
    Says(Clause),
}
