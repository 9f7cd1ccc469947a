//! What stands on the right of an assignment, without its tokens.

use c_lang::{Expr, Name};
use sqlite_items::{Boxed, Items};

/// A call: of a function by its name, with arguments; `client_in()`; or `dsu_choice` of a number.
#[derive(Debug, Drop)]
pub enum Call {
    Function(Name, Items<Expr>),
    Input,
    Choice(u32),
}

/// An expression, or a call.
#[derive(Debug, Drop)]
pub enum Right {
    Value(Boxed<Expr>),
    Call(Call),
}
