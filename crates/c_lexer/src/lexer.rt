//! A whole text, piece after piece.

ghost use Rattle.std.specs.Prelude.{◌⊎◌, ◌≡◌, ◌≢◌, ◌<◌, ◌≤◌, ◌+◌, ◌^◌, ℕ, List, All, max, length, Ok, IfOk, OnOk, IfErr, MatchResult};
ghost use Rattle.c_lang.specs.Names.{Bytes};
ghost use Rattle.c_lang.specs.Limits.{size_limit};
ghost use Rattle.c_lang.specs.declared.refusal.Refusal.{Refusal};
ghost use Rattle.c_grammar.specs.declared.token.Token.{Token};
ghost use Rattle.c_grammar.specs.Lexed as text;
ghost use Rattle.c_grammar.specs.Lexed.{AreSpans, IsRefusedAs, Lexed, Refused};
ghost use Rattle.c_grammar.specs.Written.{IsGiven};
ghost use Rattle.c_lang.specs.Refusals.{refused_at};
ghost use Rattle.c_lexer.specs.Code.Reading as spec;
ghost use Rattle.c_lexer.specs.Code.Reading.{Fits};

use crate::piece::piece_at;
use c_grammar::{Piece, Place, Token};
use c_lang::{Fail, Pos, Refusal, Unit, limit_of, refusal};
use std::alloc::Global;

fn refused(number: u8, pos: Pos) -> Fail
    ensures { result ≡ Fail.Refused (refused_at number pos) }
{
    Fail::Refused(Refusal {
        number,
        pos,
        name: None,
    })
}

fn after_byte(place: Place, byte: u8) -> Place
    requires offset { place.offset + 1 < 2 ^ 32 }
    requires line { place.pos.line + 1 < 2 ^ 32 }
    ensures { result ≡ text.after_byte place byte }
{
    let ends_line = byte == b'\n';
    let line = place.pos.line;
    Place {
        offset: place.offset + 1,
        pos: Pos {
            unit: place.pos.unit,
            line: if ends_line { line + 1 } else { line },
        },
        fresh: ends_line || (place.fresh && (byte == b' ' || byte == b'\t')),
    }
}

fn after_bytes(place: Place, bytes: &[u8]) -> Place
    requires offset { place.offset + length bytes.now < 2 ^ 30 }
    requires line { place.pos.line ≤ place.offset + 2147483648 }
    ensures value { result ≡ text.after_bytes place bytes.now }
    ensures offset { result.offset ≡ place.offset + length bytes.now }
    ensures line { result.pos.line ≤ result.offset + 2147483648 }
{
    let mut at = place;
    for byte in bytes {
        at = after_byte(at, *byte);
    }
    at
}

/// A `#line` directive gives the next line its position.
fn turned(place: Place, piece: &Piece) -> Place
    requires { Fits piece.now }
    ensures value { result ≡ text.turned place piece.now }
    ensures offset { result.offset ≡ place.offset }
    ensures line { result.pos.line ≤ max place.pos.line 2147483647 }
{
    match piece {
        Piece::Position(pos) => Place {
            offset: place.offset,
            pos: Pos {
                unit: pos.unit,
                line: pos.line - 1,
            },
            fresh: place.fresh,
        },
        _ => place,
    }
}

/// Adds the token that a piece is, or gives the refusal of a fault.
fn keep(tokens: &mut Vec<Token>, place: Place, piece: Piece, len: usize) -> Result<(), Fail>
    requires { place.offset + len < 2 ^ 30 }
    ensures ok { OnOk result (spec.with_front tokens.old.items (spec.kept place (piece, len)) ≡ Ok tokens.new.items) }
    ensures err { IfErr result (λ fail. spec.Fails fail (spec.kept place (piece, len))) }
{
    match piece {
        Piece::Space | Piece::Position(_) => Ok(()),
        Piece::Token(what) => {
            tokens.push(Token {
                what,
                start: place.offset,
                end: place.offset + len as u32,
                pos: place.pos,
            })?;
            Ok(())
        }
        Piece::Fault(fault) => Err(refused(fault.number(), place.pos)),
    }
}

/// The tokens of a text, or its first fault.
fn cut(alloc: Global, unit: Unit, bytes: &[u8]) -> Result<Vec<Token>, Fail>
    requires { length bytes.now < 2 ^ 30 }
    ensures { MatchResult result (λ tokens. spec.reading unit bytes.now ≡ Ok tokens.items) (λ fail. spec.Fails fail (spec.reading unit bytes.now)) }
{
    let mut tokens = Vec::new(alloc);
    let mut place = Place {
        offset: 0,
        pos: Pos { unit, line: 1 },
        fresh: true,
    };
    let mut rest = bytes;
    while !rest.is_empty() {
        let (piece, len) = piece_at(alloc, unit, place.fresh, rest)?;
        let next = turned(place, &piece);
        keep(&mut tokens, place, piece, len)?;
        place = after_bytes(next, &rest[..len]);
        rest = &rest[len..];
    }
    Ok(tokens)
}

/// The tokens of a unit's text. It is refused with 27 at the unit's first line where it is longer
/// than `limit_of(unit)`, and else with its first fault: 1 for a byte that begins nothing, 2 for a
/// wrong number, 4 for a wrong directive, 6 for a reserved word, 28 for a comment that isn't
/// closed. A fault's position is that of its first byte, as `#line` gave it in a merged text.
pub fn lex(alloc: Global, unit: Unit, bytes: &[u8]) -> Result<Vec<Token>, Fail>
    ensures answer { MatchResult result (λ tokens. (length bytes.now ≤ size_limit unit) × Lexed unit bytes.now tokens.items) (λ fail. IsRefusedAs fail unit bytes.now) }
    // Unless memory runs out, each text within the limit that has tokens is accepted, and with these.
    ensures only { (tokens : List Token) → length bytes.now ≤ size_limit unit → Lexed unit bytes.now tokens
        → MatchResult result (λ answer. answer.items ≡ tokens) (λ fail. fail ≡ Fail.NoMemory) }
    // Unless memory runs out, each text that is to be refused is refused, and as it is to be.
    ensures first { (why : Refusal) → Refused unit bytes.now why
        → MatchResult result (λ _. ⊥) (λ fail. fail ≢ Fail.NoMemory → fail ≡ Fail.Refused why) }
    // Each token is one that a text of the unit has.
    ensures given { IfOk result (λ tokens. All (IsGiven unit) tokens.items) }
    // The tokens' spans are in order, and each token is what its slice of the text says.
    ensures spans { IfOk result (λ tokens. AreSpans bytes.now 0 tokens.items) }
{
    if bytes.len() > limit_of(unit) {
        return Err(refused(refusal::PAST_LIMIT, Pos { unit, line: 1 }));
    }
    cut(alloc, unit, bytes)
}

/// No text has two lists of tokens.
pub fn one_token_list()
    ensures { (unit : Unit) (bytes : Bytes) (some other : List Token) → Lexed unit bytes some → Lexed unit bytes other → some ≡ other }
{}

/// No text is refused for two reasons.
pub fn one_refusal()
    ensures { (unit : Unit) (bytes : Bytes) (why other : Refusal) → Refused unit bytes why → Refused unit bytes other → why ≡ other }
{}

/// Each text has tokens and is within the limit, or is refused for a reason, and none is both.
pub fn lexed_or_refused()
    ensures either { (unit : Unit) (bytes : Bytes) → ((length bytes ≤ size_limit unit) × ((tokens : List Token) × Lexed unit bytes tokens)) ⊎ ((why : Refusal) × Refused unit bytes why) }
    ensures not_both { (unit : Unit) (bytes : Bytes) (tokens : List Token) (why : Refusal) → length bytes ≤ size_limit unit → Lexed unit bytes tokens → Refused unit bytes why → ⊥ }
{}
