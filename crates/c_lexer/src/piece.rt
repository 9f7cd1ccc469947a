//! The piece at the front of a text.

ghost use Rattle.std.specs.Prelude.{◌≡◌, ◌<◌, ◌≤◌, ◌+◌, ◌^◌, length, slice_index, take, IfOk, IfSome, true};
ghost use Rattle.std.specs.List.{prefix_len};
ghost use Rattle.c_lang.specs.Names.{is_digit as digit, is_letter as letter};
ghost use Rattle.c_grammar.specs.Punctuators.{punctuator_number};
ghost use Rattle.c_grammar.specs.Pieces as pieces;
ghost use Rattle.c_lexer.specs.Code.Reading as spec;
ghost use Rattle.c_lexer.specs.Code.Reading.{Fits, IsWithin};

use crate::bytes::{Class, byte_at, is_digit, is_in, is_letter, is_white, run_of};
use crate::directive::directive;
use crate::punctuator;
use crate::words::{is_refused, keyword_number};
use c_grammar::{Fault, Piece, Word};
use c_lang::{Name, Unit};
use std::alloc::{AllocError, Global};

fn has_leading_zero(text: &[u8]) -> bool
    ensures { result ≡ spec.has_leading_zero text.now }
{
    text.len() > 1 && byte_at(text, 0) == b'0'
}

fn value_of(text: &[u8]) -> Option<u32>
    ensures value { result ≡ spec.value_from 0 text.now }
    ensures small { IfSome result (λ n. n ≤ 2147483647) }
{
    let mut value: u64 = 0;
    for byte in text {
        if !is_digit(*byte) {
            return None;
        }
        value = value * 10 + (*byte - b'0') as u64;
        if value > 2147483647 {
            return None;
        }
    }
    Some(value as u32)
}

/// The number that a text is.
pub fn number_of(text: &[u8]) -> Option<u32>
    ensures value { result ≡ spec.number_of text.now }
    ensures small { IfSome result (λ n. n ≤ 2147483647) }
{
    if has_leading_zero(text) {
        return None;
    }
    value_of(text)
}

fn number(text: &[u8]) -> (Piece, usize)
    requires { digit (slice_index text.now 0) ≡ true }
    ensures value { result ≡ spec.number text.now }
    ensures within { IsWithin text.now result }
{
    let end = run_of(Class::Number, text);
    match number_of(&text[..end]) {
        Some(n) => (Piece::Token(Word::Number(n as i32)), end),
        None => (Piece::Fault(Fault::BadNumber), end),
    }
}

fn word(alloc: Global, unit: Unit, text: &[u8]) -> Result<(Piece, usize), AllocError>
    requires { letter (slice_index text.now 0) ≡ true }
    ensures value { IfOk result (λ cut. cut ≡ spec.word unit text.now) }
    ensures within { IfOk result (IsWithin text.now) }
{
    let end = run_of(Class::Word, text);
    let word = &text[..end];
    if is_refused(unit, word) {
        return Ok((Piece::Fault(Fault::Reserved), end));
    }
    if let Some(k) = keyword_number(word) {
        return Ok((Piece::Token(Word::Key(k)), end));
    }
    let name = Name::new(alloc, word)?;
    Ok((Piece::Token(Word::Ident(name)), end))
}

/// How many bytes there are up to the end of the first `*/`.
fn closing(mut text: &[u8]) -> Option<usize>
    requires { length text.now < 2 ^ 63 }
    ensures value { result ≡ spec.closing 0 text.entry.now }
    ensures within { IfSome result (λ n. n ≤ length text.entry.now) }
{
    let mut passed = 0;
    while let [byte, rest @ ..] = text {
        if *byte == b'*' && byte_at(rest, 0) == b'/' {
            return Some(passed + 2);
        }
        passed += 1;
        text = rest;
    }
    None
}

fn begins_comment(text: &[u8]) -> bool
    ensures { result ≡ pieces.begins_comment text.now }
{
    let next = byte_at(text, 1);
    byte_at(text, 0) == b'/' && (next == b'*' || next == b'/')
}

fn comment(text: &[u8]) -> (Piece, usize)
    requires { pieces.begins_comment text.now ≡ true }
    ensures value { result ≡ spec.comment text.now }
    ensures within { IsWithin text.now result }
{
    let body = &text[2..];
    if byte_at(text, 1) != b'*' {
        return (Piece::Space, run_of(Class::Line, body) + 2);
    }
    match closing(body) {
        Some(len) => (Piece::Space, len + 2),
        None => (Piece::Fault(Fault::OpenComment), 1),
    }
}

/// The number of a punctuator of one byte.
#[tactic(auto, unfolding(c_grammar::specs::Punctuators::punctuator_number))]
fn single(byte: u8) -> Option<u8>
    ensures { result ≡ spec.single byte }
{
    match byte {
        b'(' => Some(punctuator::ROUND_OPEN),
        b')' => Some(punctuator::ROUND_CLOSE),
        b'{' => Some(punctuator::BRACE_OPEN),
        b'}' => Some(punctuator::BRACE_CLOSE),
        b'[' => Some(punctuator::SQUARE_OPEN),
        b']' => Some(punctuator::SQUARE_CLOSE),
        b';' => Some(punctuator::SEMICOLON),
        b',' => Some(punctuator::COMMA),
        b'=' => Some(punctuator::EQUALS),
        b'+' => Some(punctuator::PLUS),
        b'-' => Some(punctuator::MINUS),
        b'*' => Some(punctuator::STAR),
        b'/' => Some(punctuator::SLASH),
        b'%' => Some(punctuator::PERCENT),
        b'!' => Some(punctuator::BANG),
        b'<' => Some(punctuator::LESS),
        b'>' => Some(punctuator::GREATER),
        _ => None,
    }
}

/// The number of a punctuator of two bytes.
#[tactic(auto, unfolding(crate::specs::Code::Reading::pair))]
fn pair(byte: u8, next: u8) -> Option<u8>
    ensures { result ≡ spec.pair byte next }
{
    match (byte, next) {
        (b'<', b'=') => Some(punctuator::AT_MOST),
        (b'>', b'=') => Some(punctuator::AT_LEAST),
        (b'=', b'=') => Some(punctuator::SAME),
        (b'!', b'=') => Some(punctuator::DIFFERENT),
        (b'&', b'&') => Some(punctuator::AND),
        (b'|', b'|') => Some(punctuator::OR),
        (b'+', b'+') => Some(punctuator::TWO_PLUSES),
        (b'-', b'-') => Some(punctuator::TWO_MINUSES),
        _ => None,
    }
}

fn punctuator(text: &[u8]) -> (Piece, usize)
    requires { 0 < length text.now }
    ensures value { result ≡ spec.punctuator text.now }
    ensures within { IsWithin text.now result }
{
    if text.len() > 1
        && let Some(k) = pair(text[0], text[1])
    {
        return (Piece::Token(Word::Punct(k)), 2);
    }
    match single(text[0]) {
        Some(k) => (Piece::Token(Word::Punct(k)), 1),
        None => (Piece::Fault(Fault::BadByte), 1),
    }
}

/// The piece at the front of a text that isn't empty, and its length. `fresh` where only spaces
/// and tabs stand before it on its line.
#[tactic(auto, unfolding(crate::specs::Code::Reading::piece_at))]
pub fn piece_at(
    alloc: Global,
    unit: Unit,
    fresh: bool,
    text: &[u8],
) -> Result<(Piece, usize), AllocError>
    requires { 0 < length text.now }
    ensures value { IfOk result (λ cut. cut ≡ spec.piece_at unit fresh text.now) }
    ensures within { IfOk result (IsWithin text.now) }
    ensures fits { IfOk result (λ cut. Fits cut.0) }
{
    let byte = text[0];
    if is_white(byte) {
        return Ok((Piece::Space, 1));
    }
    if is_digit(byte) {
        return Ok(number(text));
    }
    if is_letter(byte) {
        return word(alloc, unit, text);
    }
    if byte == b'#' {
        return Ok(directive(unit, fresh, text));
    }
    if begins_comment(text) {
        return Ok(comment(text));
    }
    Ok(punctuator(text))
}
