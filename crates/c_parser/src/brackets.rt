//! Open brackets.

ghost use Rattle.std.specs.Prelude.{◌≡◌, ◌<◌, ◌+◌, ◌^◌};
ghost use Rattle.c_grammar.specs.Nesting as spec;

use c_lang::Pos;
use c_lexer::{Token, Word, punctuator};

/// How many brackets are open after this token.
fn opened(before: usize, word: &Word) -> usize
    requires { before + 1 < 2 ^ 64 }
    ensures { result ≡ spec.opened before word.now }
{
    match word {
        Word::Punct(punctuator::ROUND_OPEN | punctuator::BRACE_OPEN | punctuator::SQUARE_OPEN) =>
            before + 1,
        Word::Punct(punctuator::ROUND_CLOSE | punctuator::BRACE_CLOSE | punctuator::SQUARE_CLOSE) =>
            { before.saturating_sub(1) }
        _ => before,
    }
}

/// The position of the first token at which more than `deep` brackets are open, if there is one.
pub fn too_deep(deep: u32, tokens: &[Token]) -> Option<Pos>
    ensures { result ≡ spec.too_deep deep 0 tokens.now }
{
    let mut open_now = 0;
    for token in tokens {
        open_now = opened(open_now, &token.what);
        if open_now > deep as usize {
            return Some(token.pos);
        }
    }
    None
}
