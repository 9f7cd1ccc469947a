use c_lang::Name;
use formula_texts::token::Token as FormulaToken;

/// What ends a part of a clause: `;`, `:` and `..`.
#[derive(Clone, Copy, Debug)]
pub enum Closing {
    Semicolon,
    Colon,
    Range,
}

/// What a token is: a word that may be a name; `$r`, or `$` with a number; a token that stands for itself
/// in formulas; `&`; or the end of a part.
#[derive(Debug, Drop)]
pub enum Kind {
    Name(Name),
    Cell(Name),
    Part(FormulaToken),
    Function,
    Closing(Closing),
}

/// A token, and the line on which it stands.
#[derive(Debug, Drop)]
pub struct Token {
    pub kind: Kind,
    pub line: u32,
}

/// A piece of a text: white space or a comment, which may end a line, or a token.
#[derive(Debug, Drop)]
pub enum Piece {
    Blank(bool),
    Token(Kind),
}
