//! The numbers of the punctuators: `punctuators_have_numbers` says that they are those of the punctuators'
//! texts.

ghost use Rattle.c_grammar.specs.Tokens.{ArePunctuators};

pub const ROUND_OPEN: u8 = 0;

pub const ROUND_CLOSE: u8 = 1;

pub const BRACE_OPEN: u8 = 2;

pub const BRACE_CLOSE: u8 = 3;

pub const SQUARE_OPEN: u8 = 4;

pub const SQUARE_CLOSE: u8 = 5;

pub const SEMICOLON: u8 = 6;

pub const COMMA: u8 = 7;

pub const EQUALS: u8 = 8;

pub const PLUS: u8 = 9;

pub const MINUS: u8 = 10;

pub const STAR: u8 = 11;

pub const SLASH: u8 = 12;

pub const PERCENT: u8 = 13;

pub const BANG: u8 = 14;

pub const LESS: u8 = 15;

pub const GREATER: u8 = 16;

pub const AT_MOST: u8 = 17;

pub const AT_LEAST: u8 = 18;

pub const SAME: u8 = 19;

pub const DIFFERENT: u8 = 20;

pub const AND: u8 = 21;

pub const OR: u8 = 22;

pub const TWO_PLUSES: u8 = 23;

pub const TWO_MINUSES: u8 = 24;

/// The number of each punctuator of the grammar is that of its text.
pub fn punctuators_have_numbers()
    ensures { ArePunctuators }
{}
