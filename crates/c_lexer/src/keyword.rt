//! The numbers of the keywords that the grammar has: `keywords_have_numbers` says that they are those of the
//! keywords' texts.

ghost use Rattle.c_grammar.specs.Tokens.{AreKeywords};

pub const ASSERT: u8 = 10;

pub const BREAK: u8 = 12;

pub const CLIENT_IN: u8 = 15;

pub const CLIENT_OUT: u8 = 16;

pub const DSU_CHOICE: u8 = 22;

pub const DSU_FORCE: u8 = 23;

pub const DSU_UPDATE: u8 = 24;

pub const DSU_UPDATED: u8 = 25;

pub const ELSE: u8 = 26;

pub const IF: u8 = 32;

pub const INT: u8 = 34;

pub const RETURN: u8 = 38;

pub const VOID: u8 = 48;

pub const WHILE: u8 = 50;

/// The number of each keyword of the grammar is that of its text.
pub fn keywords_have_numbers()
    ensures { AreKeywords }
{}
