use crate::{Form, Sym, Term};

/// A form, or that a form holds wherever its bound name stands for a number from `lo` up to, and
/// not including, `hi`.
#[derive(Debug, Drop)]
pub enum Fact {
    Plain(Form),
    All {
        var: Sym,
        lo: Term,
        hi: Term,
        body: Form,
    },
}
