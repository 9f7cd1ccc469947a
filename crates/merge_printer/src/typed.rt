//! Typed programs.

ghost use Rattle.std.specs.Prelude.{◌≡◌, IfOk};
ghost use Rattle.c_lang.specs.declared.program.Program.{Program};
ghost use Rattle.c_lang.specs.declared.unit.Unit.{Unit};
ghost use Rattle.c_types.specs.Programs.{resolved_program};
ghost use Rattle.c_types.specs.Types.{Types};
ghost use Rattle.merge_printer.specs.Heights.{funcs_height};
ghost use Rattle.merge_printer.specs.Checked.{IsCheckedMerge, ChecksAs};
ghost use Rattle.merge_printer.specs.Programs.{program_text};

use crate::program;
use c_types::Typed;
use std::alloc::{AllocError, Global};

/// The text of a typed merged program. Lexed, parsed and checked as unit Merge it is the same typed
/// program, positions included.
///
/// The program is what a check as unit Merge gives of a printable program: one that is written in
/// unit Merge, whose positions have lines from 1 to 2147483647 in units of programs, and whose text
/// is at most 72 high and has at most 72 brackets open at once. The only error is want of memory.
pub fn print(alloc: Global, program: &Typed) -> Result<Vec<u8>, AllocError>
    requires { IsCheckedMerge program.now }
    ensures text { IfOk result (λ text. text.items ≡ program_text program.now.program) }
    ensures checked { IfOk result (λ text. ChecksAs text.items program.now) }
{
    program::program_text(alloc, program.program())
}

/// A typed program is as high as the program that was checked.
pub fn height_is_kept()
    ensures { (unit : Unit) (program : Program) → Types unit program → funcs_height (resolved_program program).funcs ≡ funcs_height program.funcs }
{}
