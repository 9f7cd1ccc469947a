//! Cuts a text into its tokens.

ghost use Rattle.c_lang.specs.Names.{is_word};
ghost use Rattle.c_grammar.specs.Bytes.{is_in_word};
ghost use Rattle.std.specs.List.{list_all, prefix_len};
ghost use Rattle.std.specs.Prelude.{◌≡◌, ◌∷◌, ◌++◌, [], OnOk, ◌≢◌, ◌≤◌, ◌<◌, ◌^◌, ◌+◌, length, slice_index, true, IfOk, IfSome};
ghost use Rattle.formula_texts.specs.Tokens as words;
ghost use Rattle.formula_texts.specs.Tokens.{number_limit};
ghost use Rattle.formula_texts.specs.Code.Lexing as spec;
ghost use Rattle.formula_texts.specs.Code.Reading.{Gives};

use crate::stop::Stop;
use crate::token::{Mark, Operator, Token};
use c_lang::Name;
use c_lexer::bytes::{Class, byte_at, is_digit, is_in, is_letter, is_same, is_white, run_of};
use std::alloc::{AllocError, Global};

/// The largest number of a text.
pub const NUMBER_LIMIT: u128 = 1 << 100;

/// The largest count of a name.
const COUNT_LIMIT: u128 = u32::MAX as u128;

/// The number of these digits, where it is no larger than the limit.
fn value_of(limit: u128, digits: &[u8]) -> Option<u128>
    requires { limit ≤ 2 ^ 100 }
    ensures value { result ≡ spec.value_from limit 0 digits.now }
    ensures small { IfSome result (λ n. n ≤ limit) }
{
    let mut value: u128 = 0;
    for byte in digits {
        if !is_digit(*byte) {
            return None;
        }
        value = value * 10 + (*byte - b'0') as u128;
        if value > limit {
            return None;
        }
    }
    Some(value)
}

fn has_leading_zero(digits: &[u8]) -> bool
    ensures { result ≡ spec.has_leading_zero digits.now }
{
    digits.len() > 1 && byte_at(digits, 0) == b'0'
}

fn number_of(limit: u128, digits: &[u8]) -> Option<u128>
    requires { limit ≤ 2 ^ 100 }
    ensures value { result ≡ spec.number_of limit digits.now }
    ensures small { IfSome result (λ n. n ≤ limit) }
{
    if digits.is_empty() || has_leading_zero(digits) {
        return None;
    }
    value_of(limit, digits)
}

/// The number that a text is, where it is no larger than the limit.
#[tactic(auto, using(crate::proofs::NumberLaws::number_is))]
pub fn number_in(limit: u128, digits: &[u8]) -> Option<u128>
    requires { limit ≤ 2 ^ 100 }
    ensures value { result ≡ words.number_in limit digits.now }
    ensures small { IfSome result (λ n. n ≤ limit) }
{
    number_of(limit, digits)
}

#[tactic(auto, using(crate::proofs::NumberLaws::run_all))]
fn is_all_word(text: &[u8]) -> bool
    ensures { result ≡ list_all is_in_word text.now }
{
    run_of(Class::Word, text) == text.len()
}

/// Whether the text is a word.
pub fn is_word(text: &[u8]) -> bool
    ensures { result ≡ is_word text.now }
{
    match text {
        [first, rest @ ..] => is_letter(*first) && is_all_word(rest),
        [] => false,
    }
}

/// Whether the word is no name.
pub fn is_taken(word: &[u8]) -> bool
    ensures { result ≡ words.is_taken word.now }
{
    is_same(word, b"and") || is_same(word, b"or") || is_same(word, b"not") || is_same(word, b"null")
}

/// The token of a word that is no name.
pub fn own_word(word: &[u8]) -> Option<Token>
    ensures { result ≡ words.found_in words.own_words word.now }
{
    if is_same(word, b"and") {
        Some(Token::Operator(Operator::And))
    } else if is_same(word, b"or") {
        Some(Token::Operator(Operator::Or))
    } else if is_same(word, b"not") {
        Some(Token::Not)
    } else if is_same(word, b"null") {
        Some(Token::Null)
    } else {
        None
    }
}

fn own_dollar_word(word: &[u8]) -> Option<Token>
    ensures { result ≡ words.found_in words.own_dollar_words word.now }
{
    if is_same(word, b"true") {
        Some(Token::True)
    } else if is_same(word, b"false") {
        Some(Token::False)
    } else if is_same(word, b"truth") {
        Some(Token::Truth)
    } else if is_same(word, b"store") {
        Some(Token::Store)
    } else {
        None
    }
}

fn base(alloc: Global, name: &[u8]) -> Result<Option<Token>, AllocError>
    ensures { IfOk result (λ found. found ≡ Some (Token.Base name.now)) }
{
    Ok(Some(Token::Base(Name::new(alloc, name)?)))
}

/// A base with its `$`.
fn dollar_base(alloc: Global, run: &[u8]) -> Result<Option<Token>, AllocError>
    ensures { IfOk result (λ found. found ≡ Some (Token.Base (36 ∷ run.now))) }
{
    let mut name = Vec::from_slice(alloc, b"$")?;
    name.extend_from_slice(run)?;
    base(alloc, name.as_slice())
}

/// The token of a run of letters, digits and `_`.
#[tactic(auto, unfolding(crate::specs::Tokens::plain_token))]
fn plain_token(alloc: Global, run: &[u8]) -> Result<Option<Token>, AllocError>
    ensures { IfOk result (λ found. found ≡ words.plain_token run.now) }
{
    if let Some(token) = own_word(run) {
        return Ok(Some(token));
    }
    if is_word(run) {
        return base(alloc, run);
    }
    match number_in(NUMBER_LIMIT, run) {
        Some(number) => Ok(Some(Token::Number(number as i128))),
        None => Ok(None),
    }
}

/// The token of a run behind a `$`.
#[tactic(auto, unfolding(crate::specs::Tokens::dollar_token))]
fn dollar_token(alloc: Global, run: &[u8]) -> Result<Option<Token>, AllocError>
    ensures { IfOk result (λ found. found ≡ words.dollar_token run.now) }
{
    if let Some(token) = own_dollar_word(run) {
        return Ok(Some(token));
    }
    if is_taken(run) {
        return base(alloc, run);
    }
    if is_same(run, b"r") {
        return base(alloc, b"$r");
    }
    match number_in(NUMBER_LIMIT, run) {
        Some(_) => dollar_base(alloc, run),
        None => Ok(None),
    }
}

/// The token of a run behind a `'`.
#[tactic(auto, unfolding(crate::specs::Tokens::count_token))]
fn count_token(run: &[u8]) -> Option<Token>
    ensures { result ≡ words.count_token run.now }
{
    match number_in(COUNT_LIMIT, run) {
        Some(0) | None => None,
        Some(count) => Some(Token::Count(count as u32)),
    }
}

/// A mark of two bytes.
pub fn pair_token(byte: u8, next: u8) -> Option<Token>
    ensures value { result ≡ words.pair_token byte next }
    ensures next { IfSome result (λ _. next ≡ 61) }
{
    if next != b'=' {
        return None;
    }
    match byte {
        b'<' => Some(Token::Operator(Operator::AtMost)),
        b'>' => Some(Token::Operator(Operator::AtLeast)),
        b'=' => Some(Token::Operator(Operator::Equal)),
        b'!' => Some(Token::Operator(Operator::Unequal)),
        _ => None,
    }
}

fn byte_token(byte: u8) -> Option<Token>
    ensures { result ≡ words.byte_token byte }
{
    match byte {
        b'(' => Some(Token::Mark(Mark::RoundOpen)),
        b')' => Some(Token::Mark(Mark::RoundClose)),
        b'[' => Some(Token::Mark(Mark::SquareOpen)),
        b']' => Some(Token::Mark(Mark::SquareClose)),
        b',' => Some(Token::Mark(Mark::Comma)),
        b'+' => Some(Token::Operator(Operator::Plus)),
        b'*' => Some(Token::Operator(Operator::Times)),
        b'/' => Some(Token::Mark(Mark::Slash)),
        b'%' => Some(Token::Mark(Mark::Percent)),
        b'<' => Some(Token::Operator(Operator::Less)),
        b'>' => Some(Token::Operator(Operator::Greater)),
        _ => None,
    }
}

/// A mark of one byte.
fn single_token(byte: u8, next: u8) -> Option<Token>
    ensures { result ≡ words.single_token byte next }
{
    if byte == b'-' {
        return Some(Token::Operator(if is_digit(next) {
            Operator::TightMinus
        } else {
            Operator::Minus
        }));
    }
    if byte == b'/' && next == b'/' {
        return None;
    }
    byte_token(byte)
}

/// A token of so many bytes.
fn cut(size: usize, found: Option<Token>) -> Result<(Option<Token>, usize), Stop>
    ensures value { Gives (λ cut. cut) result (spec.cut_by size found) }
    ensures size { IfOk result (λ cut. cut.1 ≡ size) }
{
    match found {
        Some(token) => Ok((Some(token), size)),
        None => Err(Stop::NoText),
    }
}

/// A mark, where `rest` follows its first byte.
fn mark(byte: u8, rest: &[u8]) -> Result<(Option<Token>, usize), Stop>
    ensures value { Gives (λ cut. cut) result (spec.mark_by byte (slice_index rest.now 0) (words.pair_token byte (slice_index rest.now 0))) }
    ensures within { IfOk result (λ cut. (1 ≤ cut.1) × (cut.1 ≤ 1 + length rest.now)) }
{
    let next = byte_at(rest, 0);
    match pair_token(byte, next) {
        Some(token) => Ok((Some(token), 2)),
        None => cut(1, single_token(byte, next)),
    }
}

fn run_end(text: &[u8]) -> usize
    ensures value { result ≡ prefix_len is_in_word text.now }
    ensures within { result ≤ length text.now }
{
    run_of(Class::Word, text)
}

fn plain(alloc: Global, text: &[u8]) -> Result<(Option<Token>, usize), Stop>
    requires { is_in_word (slice_index text.now 0) ≡ true }
    ensures value { Gives (λ cut. cut) result (spec.run_at words.plain_token 0 text.now) }
    ensures within { IfOk result (λ cut. (1 ≤ cut.1) × (cut.1 ≤ length text.now)) }
{
    let end = run_end(text);
    cut(end, plain_token(alloc, &text[..end])?)
}

fn behind_dollar(alloc: Global, rest: &[u8]) -> Result<(Option<Token>, usize), Stop>
    requires { 1 + length rest.now < 2 ^ 64 }
    ensures value { Gives (λ cut. cut) result (spec.run_at words.dollar_token 1 rest.now) }
    ensures within { IfOk result (λ cut. (1 ≤ cut.1) × (cut.1 ≤ 1 + length rest.now)) }
{
    let end = run_end(rest);
    cut(1 + end, dollar_token(alloc, &rest[..end])?)
}

fn behind_apostrophe(rest: &[u8]) -> Result<(Option<Token>, usize), Stop>
    requires { 1 + length rest.now < 2 ^ 64 }
    ensures value { Gives (λ cut. cut) result (spec.run_at words.count_token 1 rest.now) }
    ensures within { IfOk result (λ cut. (1 ≤ cut.1) × (cut.1 ≤ 1 + length rest.now)) }
{
    let end = run_end(rest);
    cut(1 + end, count_token(&rest[..end]))
}

/// A token or a gap at the front of a text that isn't empty, and how many bytes it has.
#[tactic(auto, unfolding(crate::specs::Code::Lexing::piece_by))]
fn piece(alloc: Global, text: &[u8]) -> Result<(Option<Token>, usize), Stop>
    requires { 0 < length text.now }
    ensures value { Gives (λ cut. cut) result (spec.piece_at text.now) }
    ensures within { IfOk result (λ cut. (1 ≤ cut.1) × (cut.1 ≤ length text.now)) }
{
    let byte = text[0];
    let rest = &text[1..];
    if is_white(byte) {
        return Ok((None, 1));
    }
    if byte == b'/' && byte_at(rest, 0) == b'/' {
        return Ok((None, run_of(Class::Line, &rest[1..]) + 2));
    }
    if is_in(Class::Word, byte) {
        return plain(alloc, text);
    }
    match byte {
        b'$' => behind_dollar(alloc, rest),
        b'\'' => behind_apostrophe(rest),
        _ => mark(byte, rest),
    }
}

/// Adds the token of a piece.
fn keep(tokens: &mut Vec<Token>, found: Option<Token>) -> Result<(), AllocError>
    ensures { OnOk result (tokens.new.items ≡ tokens.old.items ++ spec.kept found []) }
{
    match found {
        Some(token) => Ok(tokens.push(token)?),
        None => Ok(()),
    }
}

/// The tokens of a text.
pub fn tokens_of(alloc: Global, text: &[u8]) -> Result<Vec<Token>, Stop>
    ensures { Gives (λ tokens. tokens.items) result (spec.tokens_in text.now) }
{
    let mut tokens = Vec::new(alloc);
    let mut rest = text;
    while !rest.is_empty() {
        let (found, size) = piece(alloc, rest)?;
        keep(&mut tokens, found)?;
        rest = &rest[size..];
    }
    Ok(tokens)
}
