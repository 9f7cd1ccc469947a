use sqlite_items::Items;
use terms::{Form, Sym, Term};

/// A rule of a certificate. `fact` and `at` are numbers of facts, `place` counts the terms in a fact
/// that the rule may be about, and `sum` has the numbers of facts with their multipliers.
#[derive(Debug, Drop)]
pub enum Rule {
    Close { sum: Items<(u32, i128)> },
    Both { fact: u32 },
    Case { fact: u32 },
    Cut { form: Form },
    Round { sum: Items<(u32, i128)>, by: i128 },
    RangeName { name: Sym },
    RangeRead { fact: u32, place: u32 },
    Same { fact: u32, at: u32 },
    Read { fact: u32, place: u32 },
    Inst { fact: u32, term: Term },
    Truth { fact: u32, place: u32 },
    Divide { fact: u32, place: u32 },
}

/// A certificate: its rules, each before those of its children.
#[derive(Debug, Drop)]
pub struct Cert {
    pub rules: Items<Rule>,
}
