//! Reads whole texts.

ghost use Rattle.std.specs.Prelude.{◌≡◌, IfOk, MatchResult};
ghost use Rattle.c_lang.specs.Names.{Bytes};
ghost use Rattle.c_lang.specs.declared.program.Program.{Program};
ghost use Rattle.loop_invariants.specs.Hints.{Hints as HintsData};
ghost use Rattle.loop_invariants.specs.Fitting.{Fit};
ghost use Rattle.hint_reading.specs.Reading.{AreHints, IsShort, IsAnswer};
ghost use Rattle.hint_reading.specs.Code.Parts.{ReadsHints, IsCheckedFor, fail_of};

use crate::parts::parts_of;
use c_lang::refusal::{BAD_HINTS, UNLISTED_CELL};
use c_lang::{Fail, Pos, Refusal, Unit};
use c_types::Typed;
use hint_texts::{Fault, Item, read_items};
use loop_invariants::Hints;
use name_tables::ProgramNames;
use std::alloc::Global;

// The hints that the items are.
fn hints_of(alloc: Global, names: &ProgramNames<'_>, items: &[Item]) -> Result<Hints, Fault>
    ensures { ReadsHints names.now items.now result }
{
    let parts = parts_of(alloc, names, items)?;
    Ok(parts.into_hints())
}

fn failed(fault: Fault) -> Fail
    ensures { result ≡ fail_of fault }
{
    match fault {
        Fault::NoMemory => Fail::NoMemory,
        Fault::NoText(line) => {
            let pos = Pos {
                unit: Unit::Hints,
                line,
            };
            Fail::Refused(Refusal::at(BAD_HINTS, pos))
        }
    }
}

// The hints that the items are, where no contract lists too few cells.
fn checked(alloc: Global, names: &ProgramNames<'_>, items: &[Item]) -> Result<Hints, Fail>
    ensures { IsCheckedFor names.now items.now result }
{
    let hints = match hints_of(alloc, names, items) {
        Ok(hints) => hints,
        Err(fault) => return Err(failed(fault)),
    };
    match hints.lacking(alloc, names)? {
        None => Ok(hints),
        Some(pos) => Err(Fail::Refused(Refusal::at(UNLISTED_CELL, pos))),
    }
}

/// The hints that a text says of a program. Errors: want of memory, and the first refusal. 27 comes at the first line
/// where the text is longer than `limit_of(Unit::Hints)`; else 23 where it is no hints text for the program, at the
/// line of the first beginning of an item or clause that may not stand, or at one that can't be read; else 24 at
/// the first function in the program's order whose contract doesn't list a cell that its body sets, or that a function
/// may change which it calls.
pub fn read_hints(alloc: Global, program: &Typed, bytes: &[u8]) -> Result<Hints, Fail>
    ensures answer { IsAnswer program.now.program bytes.now result }
    // Unless memory runs out, the hints that a text within the limit says are read from it.
    ensures only { (hints : HintsData) → IsShort bytes.now → AreHints program.now.program bytes.now hints
        → MatchResult result (λ read. read ≡ hints) (λ fail. fail ≡ Fail.NoMemory) }
    ensures fit { IfOk result (λ hints. Fit program.now.program hints) }
{
    let names = ProgramNames::new(alloc, program.program())?;
    let items = match read_items(alloc, &names, bytes) {
        Ok(items) => items,
        Err(fail) => return Err(fail),
    };
    checked(alloc, &names, items.as_slice())
}

/// No text says two hints of a program.
pub fn one_meaning()
    ensures { (p : Program) (text : Bytes) (some other : HintsData) → AreHints p text some → AreHints p text other → some ≡ other }
{}
