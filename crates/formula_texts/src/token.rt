use c_lang::Name;

/// An operator between two parts. `TightMinus` is a `-` that stands directly before a digit, and
/// `Minus` every other one.
#[derive(Clone, Copy, Debug)]
pub enum Operator {
    Or,
    And,
    Less,
    AtMost,
    Greater,
    AtLeast,
    Equal,
    Unequal,
    Plus,
    Minus,
    TightMinus,
    Times,
}

/// Brackets, the comma, and the signs that stand between a term and its divisor.
#[derive(Clone, Copy, Debug)]
pub enum Mark {
    RoundOpen,
    RoundClose,
    SquareOpen,
    SquareClose,
    Comma,
    Slash,
    Percent,
}

/// A token of a text. `Base` is a name without its count, and `Count` a count with its `'`.
#[derive(Debug, Drop)]
pub enum Token {
    Base(Name),
    Count(u32),
    Number(i128),
    Operator(Operator),
    Not,
    Null,
    True,
    False,
    Truth,
    Store,
    Mark(Mark),
}
