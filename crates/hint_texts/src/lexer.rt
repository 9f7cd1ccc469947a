//! Cuts a text into its tokens.

ghost use Rattle.std.specs.Prelude.{◌≡◌, ◌++◌, ◌<◌, ◌^◌, ◌+◌, [], ◌∷◌, OnOk, IfOk, IfSome, Some, drop, length, slice_index, true, option_map};
ghost use Rattle.c_grammar.specs.Bytes.{is_in_word};
ghost use Rattle.std.specs.List.{prefix_len};
ghost use Rattle.formula_texts.specs.Code.Reading.{Gives};
ghost use Rattle.hint_texts.specs.Code.Runs.{Gives as Reads};
ghost use Rattle.hint_texts.specs.Tokens as words;
ghost use Rattle.hint_texts.specs.Code.Lexing as spec;

use crate::fault::Fault;
use crate::token::{Closing, Kind, Piece, Token};
use c_lang::Name;
use c_lexer::bytes::{Class, byte_at, is_in, is_same, is_white, run_of};
use formula_texts::lexer::{is_word, number_in, own_word, pair_token};
use formula_texts::stop::Stop;
use formula_texts::token::{Mark, Operator, Token as FormulaToken};
use std::alloc::{AllocError, Global};

/// The largest number of a hints text.
const NUMBER_LIMIT: u128 = 2_147_483_647;

fn number_kind(run: &[u8]) -> Option<Kind>
    ensures { result ≡ words.number_kind run.now }
{
    match number_in(NUMBER_LIMIT, run) {
        Some(number) => Some(Kind::Part(FormulaToken::Number(number as i128))),
        None => None,
    }
}

fn word_kind(alloc: Global, run: &[u8]) -> Result<Option<Kind>, AllocError>
    ensures { IfOk result (λ kind. kind ≡ words.word_kind run.now) }
{
    if is_word(run) {
        return Ok(Some(Kind::Name(Name::new(alloc, run)?)));
    }
    Ok(number_kind(run))
}

/// The token of a run of letters, digits and `_`.
#[tactic(auto, unfolding(crate::specs::Tokens::plain_kind))]
fn plain_kind(alloc: Global, run: &[u8]) -> Result<Option<Kind>, AllocError>
    ensures { IfOk result (λ kind. kind ≡ words.plain_kind run.now) }
{
    match own_word(run) {
        Some(token) => Ok(Some(Kind::Part(token))),
        None => word_kind(alloc, run),
    }
}

/// A name with its `$`.
fn dollar_name(alloc: Global, run: &[u8]) -> Result<Name, AllocError>
    ensures { IfOk result (λ name. name ≡ 36 ∷ run.now) }
{
    let mut name = Vec::from_slice(alloc, b"$")?;
    name.extend_from_slice(run)?;
    Ok(Name::from_vec(name))
}

/// The token of a run behind a `$`.
#[tactic(auto, unfolding(crate::specs::Tokens::cell_kind))]
fn cell_kind(alloc: Global, run: &[u8]) -> Result<Option<Kind>, AllocError>
    ensures { IfOk result (λ kind. kind ≡ words.cell_kind run.now) }
{
    if is_same(run, b"r") {
        return Ok(Some(Kind::Cell(Name::new(alloc, b"$r")?)));
    }
    match number_in(NUMBER_LIMIT, run) {
        Some(_) => Ok(Some(Kind::Cell(dollar_name(alloc, run)?))),
        None => Ok(None),
    }
}

fn pair_kind(byte: u8, next: u8) -> Option<Kind>
    ensures value { result ≡ words.pair_kind byte next }
    ensures next { IfSome result (λ _. 0 < next) }
{
    if byte == b'.' && next == b'.' {
        return Some(Kind::Closing(Closing::Range));
    }
    match pair_token(byte, next) {
        Some(token) => Some(Kind::Part(token)),
        None => None,
    }
}

fn byte_kind(byte: u8) -> Option<Kind>
    ensures { result ≡ words.byte_kind byte }
{
    match byte {
        b'(' => Some(Kind::Part(FormulaToken::Mark(Mark::RoundOpen))),
        b')' => Some(Kind::Part(FormulaToken::Mark(Mark::RoundClose))),
        b'[' => Some(Kind::Part(FormulaToken::Mark(Mark::SquareOpen))),
        b']' => Some(Kind::Part(FormulaToken::Mark(Mark::SquareClose))),
        b',' => Some(Kind::Part(FormulaToken::Mark(Mark::Comma))),
        b'+' => Some(Kind::Part(FormulaToken::Operator(Operator::Plus))),
        b'-' => Some(Kind::Part(FormulaToken::Operator(Operator::Minus))),
        b'*' => Some(Kind::Part(FormulaToken::Operator(Operator::Times))),
        b'<' => Some(Kind::Part(FormulaToken::Operator(Operator::Less))),
        b'>' => Some(Kind::Part(FormulaToken::Operator(Operator::Greater))),
        b'&' => Some(Kind::Function),
        b';' => Some(Kind::Closing(Closing::Semicolon)),
        b':' => Some(Kind::Closing(Closing::Colon)),
        _ => None,
    }
}

/// A token before the rest.
fn found(kind: Option<Kind>, rest: &[u8]) -> Result<(Piece, &[u8]), Stop>
    ensures value { Gives (λ x. (x.0, x.1.now)) result (spec.found rest.now kind) }
    ensures shorter { IfOk result (λ x. x.1.now ≡ rest.now) }
{
    match kind {
        Some(kind) => Ok((Piece::Token(kind), rest)),
        None => Err(Stop::NoText),
    }
}

/// A mark, where `rest` follows its first byte.
fn mark(byte: u8, rest: &[u8]) -> Result<(Piece, &[u8]), Stop>
    ensures value { Gives (λ x. (x.0, x.1.now)) result (spec.mark_by byte rest.now (words.pair_kind byte (slice_index rest.now 0))) }
    ensures shorter { IfOk result (λ x. length x.1.now < 1 + length rest.now) }
{
    match pair_kind(byte, byte_at(rest, 0)) {
        Some(kind) => Ok((Piece::Token(kind), &rest[1..])),
        None => found(byte_kind(byte), rest),
    }
}

fn plain(alloc: Global, text: &[u8]) -> Result<(Piece, &[u8]), Stop>
    requires { is_in_word (slice_index text.now 0) ≡ true }
    ensures value { Gives (λ x. (x.0, x.1.now)) result (spec.run_at words.plain_kind text.now) }
    ensures shorter { IfOk result (λ x. length x.1.now < length text.now) }
{
    let end = run_of(Class::Word, text);
    found(plain_kind(alloc, &text[..end])?, &text[end..])
}

fn behind_dollar(alloc: Global, rest: &[u8]) -> Result<(Piece, &[u8]), Stop>
    ensures value { Gives (λ x. (x.0, x.1.now)) result (spec.run_at words.cell_kind rest.now) }
    ensures shorter { IfOk result (λ x. length x.1.now < 1 + length rest.now) }
{
    let end = run_of(Class::Word, rest);
    found(cell_kind(alloc, &rest[..end])?, &rest[end..])
}

/// A comment behind its first slash.
fn comment(rest: &[u8]) -> (Piece, &[u8])
    requires { 0 < length rest.now }
    ensures value { Some (result.0, result.1.now) ≡ spec.comment_at (drop 1 rest.now) }
    ensures shorter { length result.1.now < 1 + length rest.now }
{
    let body = &rest[1..];
    let end = run_of(Class::Line, body);
    (Piece::Blank(false), &body[end..])
}

/// The piece at the front of a text that isn't empty, and what follows it.
#[tactic(auto, unfolding(crate::specs::Code::Lexing::piece_by))]
fn piece(alloc: Global, text: &[u8]) -> Result<(Piece, &[u8]), Stop>
    requires { 0 < length text.now }
    ensures value { Gives (λ x. (x.0, x.1.now)) result (spec.piece_at text.now) }
    ensures shorter { IfOk result (λ x. length x.1.now < length text.now) }
{
    let byte = text[0];
    let rest = &text[1..];
    if is_white(byte) {
        return Ok((Piece::Blank(byte == b'\n'), rest));
    }
    if byte == b'/' && byte_at(rest, 0) == b'/' {
        return Ok(comment(rest));
    }
    if is_in(Class::Word, byte) {
        return plain(alloc, text);
    }
    if byte == b'$' {
        return behind_dollar(alloc, rest);
    }
    mark(byte, rest)
}

/// The same, of a text on this line.
fn piece_on(alloc: Global, line: u32, text: &[u8]) -> Result<(Piece, &[u8]), Fault>
    requires { 0 < length text.now }
    ensures value { Reads (λ x. (x.0, x.1.now)) result (spec.piece_at text.now) }
    ensures shorter { IfOk result (λ x. length x.1.now < length text.now) }
{
    match piece(alloc, text) {
        Ok(found) => Ok(found),
        Err(Stop::NoMemory) => Err(Fault::NoMemory),
        Err(Stop::NoText) => Err(Fault::NoText(line)),
    }
}

/// Adds the token of a piece, and gives the line behind it.
fn keep(tokens: &mut Vec<Token>, line: u32, piece: Piece) -> Result<u32, AllocError>
    requires { line + 1 < 2 ^ 32 }
    ensures tokens { OnOk result (tokens.new.items ≡ tokens.old.items ++ words.tokens_at line piece) }
    ensures line { IfOk result (λ after. after ≡ words.line_after line piece) }
{
    match piece {
        Piece::Blank(ends) => Ok(if ends { line + 1 } else { line }),
        Piece::Token(kind) => {
            tokens.push(Token { kind, line })?;
            Ok(line)
        }
    }
}

/// The tokens of a text.
pub fn tokens_of(alloc: Global, text: &[u8]) -> Result<Vec<Token>, Fault>
    requires { length text.now < 2 ^ 31 }
    ensures { Reads (λ tokens. tokens.items) result (spec.tokens_in text.now) }
{
    let mut tokens = Vec::new(alloc);
    let mut line = 1;
    let mut rest = text;
    while !rest.is_empty() {
        let (found, after) = piece_on(alloc, line, rest)?;
        line = keep(&mut tokens, line, found)?;
        rest = after;
    }
    Ok(tokens)
}
