//! Reads whole texts.

ghost use Rattle.std.specs.Prelude.{◌≡◌, ◌<◌, ◌≤◌, ◌^◌, List, MatchResult, length};
ghost use Rattle.c_lang.specs.Names.{Bytes};
ghost use Rattle.c_lang.specs.declared.program.Program.{Program};
ghost use Rattle.c_lang.specs.Limits.{size_limit};
ghost use Rattle.c_lang.specs.Refusals.{refused_at};
ghost use Rattle.c_lang.specs.declared.unit.Unit.TheVariants.{Hints};
ghost use Rattle.name_tables.specs.Declarations.{function_number};
ghost use Rattle.hint_texts.specs.declared.hints.Item.{Item as ItemData};
ghost use Rattle.hint_texts.specs.Texts.{IsAnswer, IsHintsText, on_line};
ghost use Rattle.hint_texts.specs.Code.Runs.{Gives as Reads};
ghost use Rattle.hint_texts.specs.Code.Reading as spec;

use crate::fault::Fault;
use crate::hints::Item;
use crate::items::{are_items, is_nested, items};
use crate::lexer::tokens_of;
use crate::token::Token;
use c_lang::refusal::{BAD_HINTS, PAST_LIMIT};
use c_lang::{Fail, Pos, Refusal, Unit, limit_of};
use name_tables::ProgramNames;
use sqlite_items::Items;
use std::alloc::Global;

/// The first line of a text.
const FIRST_LINE: u32 = 1;

/// The items that the tokens are, where their clauses may stand in them.
fn hints_of(alloc: Global, names: &ProgramNames<'_>, tokens: &[Token]) -> Result<Items<Item>, Fault>
    ensures { Reads (λ items. items) result (spec.hints_of (function_number names.now) tokens.now) }
{
    let items = items(alloc, names, tokens)?;
    if is_nested(tokens) && are_items(items.as_slice()) {
        Ok(items)
    } else {
        Err(Fault::NoText(FIRST_LINE))
    }
}

fn hints_in(alloc: Global, names: &ProgramNames<'_>, text: &[u8]) -> Result<Items<Item>, Fault>
    requires { length text.now < 2 ^ 31 }
    ensures { Reads (λ items. items) result (spec.hints_in (function_number names.now) text.now) }
{
    let tokens = tokens_of(alloc, text)?;
    hints_of(alloc, names, tokens.as_slice())
}

fn refused(number: u8, line: u32) -> Fail
    ensures { result ≡ Fail.Refused (refused_at number (on_line line)) }
{
    let pos = Pos {
        unit: Unit::Hints,
        line,
    };
    Fail::Refused(Refusal::at(number, pos))
}

/// The items of a hints text for a program, in the order of the text. The text is refused with 27 at its
/// first line where it is longer than `limit_of(Unit::Hints)`, and else with 23 where it is no hints text
/// for the program, at the line of a clause or beginning of an item that can't be read, or at the first
/// line. Whether names stand for what the program has is not looked at, but that a name behind `&` is that
/// of a function.
pub fn read_items(
    alloc: Global,
    names: &ProgramNames<'_>,
    bytes: &[u8],
) -> Result<Items<Item>, Fail>
    ensures answer { IsAnswer names.now bytes.now result }
    // Unless memory runs out, each hints text within the limit is read as its items.
    ensures only { (items : List ItemData) → length bytes.now ≤ size_limit Hints → IsHintsText names.now bytes.now items
        → MatchResult result (λ read. read ≡ items) (λ fail. fail ≡ Fail.NoMemory) }
{
    if bytes.len() > limit_of(Unit::Hints) {
        return Err(refused(PAST_LIMIT, FIRST_LINE));
    }
    match hints_in(alloc, names, bytes) {
        Ok(items) => Ok(items),
        Err(Fault::NoMemory) => Err(Fail::NoMemory),
        Err(Fault::NoText(line)) => Err(refused(BAD_HINTS, line)),
    }
}

/// No text is two lists of items.
pub fn one_list_of_items()
    ensures { (p : Program) (text : Bytes) (some other : List ItemData) → IsHintsText p text some → IsHintsText p text other → some ≡ other }
{}
