use terms::{Form, Term};

/// What a text stands for.
#[derive(Debug, Drop)]
pub enum Value {
    Term(Term),
    Form(Form),
}
