//! Whole transformers: globals, prototypes, functions, then what the unit as a whole must have.

ghost use Rattle.std.specs.Prelude.{◌≡◌, IfOk, [], true, Some, bytes_eq};
ghost use Rattle.std.specs.Option.{option_copied};
ghost use Rattle.c_lang.specs.Programs.{func_named};
ghost use Rattle.c_types.specs.Checks.{Checked};
ghost use Rattle.c_types.specs.Programs as programs;
ghost use Rattle.state_xform.specs.Refusals as spec;
ghost use Rattle.state_xform.specs.Transformers as transformer;
ghost use Rattle.state_xform.specs.Visible as seen;
ghost use Rattle.version_names.specs.Parts.{parts_in};

use crate::covering::check_coverage;
use crate::functions::check_funcs;
use crate::visible::visible;
use c_lang::{Fail, Func, Name, Pos, Program, Unit, refusal};
use c_types::beside::check_declarations;
use c_types::programs::{has_none, stop_early};
use c_types::simple::stop;
use sqlite_items::Items;
use std::alloc::Global;
use version_names::Links;

#[tactic(auto, unfolding(crate::specs::Transformers::start_name))]
fn is_start_name(name: &Name) -> bool
    ensures { result ≡ bytes_eq name.now transformer.start_name }
{
    name.as_bytes() == b"dsu_transform".as_slice()
}

fn start_of(funcs: &[Func]) -> Option<&Func>
    ensures { option_copied result ≡ func_named funcs.now transformer.start_name }
{
    for f in funcs {
        if is_start_name(&f.name) {
            return Some(f);
        }
    }
    None
}

fn is_start(f: &Func) -> bool
    ensures { result ≡ transformer.is_start (Some f.now) }
{
    !f.gives && has_none(f.params.as_slice())
}

fn no_start() -> Result<(), Fail>
    ensures { Checked result (Some spec.no_start) tt }
{
    let line = Pos {
        unit: Unit::Xform,
        line: 1,
    };
    stop(Some(refusal::NO_START), line)
}

fn check_started(
    alloc: Global,
    links: &Links,
    second: &Program,
    program: &Program,
    start: &Func,
) -> Result<(), Fail>
    ensures { Checked result (spec.refusal_of_started (parts_in links.now) second.now program.now start.now) tt }
{
    if !is_start(start) {
        return no_start();
    }
    stop_early(alloc, program.early.as_slice())?;
    let funcs = program.funcs.as_slice();
    check_coverage(alloc, links, funcs, start, second.globals.as_slice())
}

fn check_whole(
    alloc: Global,
    links: &Links,
    second: &Program,
    program: &Program,
) -> Result<(), Fail>
    ensures { Checked result (spec.refusal_of_whole (parts_in links.now) second.now program.now (func_named program.now.funcs transformer.start_name)) tt }
{
    match start_of(program.funcs.as_slice()) {
        Some(start) => check_started(alloc, links, second, program, start),
        None => no_start(),
    }
}

fn check_all(
    alloc: Global,
    first: &Program,
    second: &Program,
    links: &Links,
    program: &Program,
) -> Result<Items<Func>, Fail>
    ensures { Checked result (spec.first_refusal (parts_in links.now) first.now second.now program.now) (programs.resolved_funcs (seen.visible (parts_in links.now) first.now second.now program.now) true program.now.funcs) }
{
    let outside = visible(alloc, first, second, links, program)?;
    check_declarations(
        alloc,
        refusal::TRANSFORMER_EFFECT,
        Unit::Xform,
        &outside,
        program,
    )?;
    let funcs = check_funcs(alloc, outside, links, program.funcs.as_slice())?;
    check_whole(alloc, links, second, program)?;
    Ok(funcs)
}

/// The program in its resolved form, or its first refusal as a transformer of the first program to
/// the second one.
pub fn check_program(
    alloc: Global,
    first: &Program,
    second: &Program,
    links: &Links,
    program: Program,
) -> Result<Program, Fail>
    ensures { Checked result (spec.first_refusal (parts_in links.now) first.now second.now program) (spec.resolved_transformer (parts_in links.now) first.now second.now program) }
{
    let funcs = check_all(alloc, first, second, links, &program)?;
    let Program {
        globals,
        protos,
        ..
    } = program;
    Ok(Program {
        globals,
        protos,
        funcs,
        early: Items::new(alloc),
    })
}
