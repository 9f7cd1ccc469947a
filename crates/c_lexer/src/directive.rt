//! The lines that begin with `#`.

ghost use Rattle.std.specs.Prelude.{◌≡◌, ◌<◌, ◌≤◌, length, slice_index, IfSome, MatchOption, None, Some};
ghost use Rattle.std.specs.List.{prefix_len};
ghost use Rattle.c_lexer.specs.Code.Reading as spec;
ghost use Rattle.c_lexer.specs.Code.Reading.{Fits, IsWithin};

use crate::bytes::{Class, byte_at, is_in, is_same, run_of};
use crate::piece::number_of;
use c_grammar::{Fault, Piece};
use c_lang::{Pos, Unit};

fn begins_include(text: &[u8]) -> bool
    ensures { result ≡ spec.begins_include text.now }
{
    text.starts_with(b"include") && !is_in(Class::Word, byte_at(text, 7))
}

/// Whether a line from its `#` on is an `#include` line.
fn is_include(line: &[u8]) -> bool
    requires { 0 < length line.now }
    ensures { result ≡ spec.is_include line.now }
{
    let rest = &line[1..];
    begins_include(&rest[run_of(Class::Blank, rest)..])
}

/// What stands behind one or more spaces.
fn behind_spaces(text: &[u8]) -> Option<&[u8]>
    ensures { MatchOption result (spec.behind_spaces text.now ≡ None) (λ rest. spec.behind_spaces text.now ≡ Some rest.now) }
{
    let end = run_of(Class::Space, text);
    if end == 0 { None } else { Some(&text[end..]) }
}

/// The unit whose word stands here in quotes.
#[tactic(auto, unfolding(crate::specs::Code::Reading::quoted_unit))]
fn quoted_unit(text: &[u8]) -> Option<Unit>
    ensures { result ≡ spec.quoted_unit text.now }
{
    if is_same(text, b"\"old\"") {
        Some(Unit::Old)
    } else if is_same(text, b"\"new\"") {
        Some(Unit::New)
    } else if is_same(text, b"\"xform\"") {
        Some(Unit::Xform)
    } else if is_same(text, b"\"client\"") {
        Some(Unit::Client)
    } else if is_same(text, b"\"merge\"") {
        Some(Unit::Merge)
    } else {
        None
    }
}

/// A number, spaces and a unit, as they stand behind `#line` and its spaces.
#[tactic(auto, unfolding(crate::specs::Code::Reading::numbered))]
fn numbered(text: &[u8]) -> Option<Pos>
    ensures value { result ≡ spec.numbered text.now }
    ensures fits { IfSome result (λ pos. (1 ≤ pos.line) × (pos.line ≤ 2147483647)) }
{
    let end = run_of(Class::Digit, text);
    let line = number_of(&text[..end])?;
    let unit = quoted_unit(behind_spaces(&text[end..])?)?;
    if line == 0 {
        return None;
    }
    Some(Pos { unit, line })
}

/// The position that a line from its `#` on gives to the next, if it is a `#line` directive.
#[tactic(auto, unfolding(crate::specs::Code::Reading::position_of))]
fn position_of(line: &[u8]) -> Option<Pos>
    ensures value { result ≡ spec.position_of line.now }
    ensures fits { IfSome result (λ pos. (1 ≤ pos.line) × (pos.line ≤ 2147483647)) }
{
    if !line.starts_with(b"#line") {
        return None;
    }
    numbered(behind_spaces(&line[5..])?)
}

/// Only merged texts have `#line` directives.
fn position_in(unit: Unit, line: &[u8]) -> Option<Pos>
    ensures value { result ≡ spec.position_in unit line.now }
    ensures fits { IfSome result (λ pos. (1 ≤ pos.line) × (pos.line ≤ 2147483647)) }
{
    match unit {
        Unit::Merge => position_of(line),
        _ => None,
    }
}

/// What a `#` begins, with its length. `fresh` where only spaces and tabs stand before it on its line.
pub fn directive(unit: Unit, fresh: bool, text: &[u8]) -> (Piece, usize)
    requires hash { slice_index text.now 0 ≡ 35 }
    ensures value { result ≡ spec.directive unit fresh text.now }
    ensures within { IsWithin text.now result }
    ensures fits { Fits result.0 }
{
    if !fresh {
        return (Piece::Fault(Fault::BadByte), 1);
    }
    let end = run_of(Class::Line, text);
    let line = &text[..end];
    if is_include(line) {
        return (Piece::Space, end);
    }
    match position_in(unit, line) {
        Some(pos) => (Piece::Position(pos), end),
        None => (Piece::Fault(Fault::Directive), end),
    }
}
