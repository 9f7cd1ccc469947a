//! Whole clients: globals, prototypes, functions, then the function with which a run begins.

ghost use Rattle.std.specs.Prelude.{◌≡◌, Some};
ghost use Rattle.std.specs.Option.{option_copied};
ghost use Rattle.c_lang.specs.Programs.{func_named};
ghost use Rattle.c_types.specs.Bodies.{body_of};
ghost use Rattle.c_types.specs.Checks.{Checked};
ghost use Rattle.client_specs.specs.Clients as client;
ghost use Rattle.client_specs.specs.Refusals as refused;
ghost use Rattle.c_lang.specs.Trees.{statement_of};
ghost use Rattle.c_types.specs.Statements as types;
ghost use Rattle.version_names.specs.Parts.{parts_in};

use crate::functions::Checking;
use crate::kind::{ClientKind, kind_of};
use crate::region::Region;
use c_lang::{Fail, Func, Name, Pos, Program, Stmt, Unit, refusal};
use c_types::beside::check_declarations;
use c_types::programs::{has_none, stop_early};
use c_types::simple::stop;
use sqlite_items::Items;
use std::alloc::Global;
use version_names::Links;

/// Whether the statement is `dsu_force();`.
pub fn is_force(s: &Stmt) -> bool
    ensures { result ≡ types.is_force (statement_of s.now) }
{
    match s {
        Stmt::Force { .. } => true,
        Stmt::Skip { .. }
        | Stmt::Set { .. }
        | Stmt::SetElem { .. }
        | Stmt::Call { .. }
        | Stmt::CallBy { .. }
        | Stmt::If { .. }
        | Stmt::While { .. }
        | Stmt::Break { .. }
        | Stmt::Return { .. }
        | Stmt::Assert { .. }
        | Stmt::Input { .. }
        | Stmt::Output { .. }
        | Stmt::Point { .. }
        | Stmt::Choice { .. }
        | Stmt::Pick { .. } => false,
    }
}

fn has_force(stmts: &[Stmt]) -> bool
    ensures { result ≡ client.has_force (body_of stmts.now) }
{
    for s in stmts {
        if is_force(s) {
            return true;
        }
    }
    false
}

fn fits_kind(kind: Option<ClientKind>, f: &Func) -> bool
    ensures { result ≡ client.fits_kind kind f.now }
{
    match kind {
        None => false,
        Some(ClientKind::Backward) | Some(ClientKind::Conform) => true,
        Some(ClientKind::Post) => has_force(f.body.as_slice()),
    }
}

fn named<'a>(funcs: &'a [Func], name: &Name) -> Option<&'a Func>
    ensures { option_copied result ≡ func_named funcs.now name.now }
{
    for f in funcs {
        if &f.name == name {
            return Some(f);
        }
    }
    None
}

fn is_spec(spec: &Name, f: Option<&Func>) -> bool
    ensures { result ≡ client.is_spec spec.now (option_copied f.entry) }
{
    match f {
        None => false,
        Some(f) => has_none(f.params.as_slice()) && fits_kind(kind_of(spec), f),
    }
}

fn no_spec() -> Result<(), Fail>
    ensures { Checked result (Some refused.no_spec) tt }
{
    let line = Pos {
        unit: Unit::Client,
        line: 1,
    };
    stop(Some(refusal::NO_SPEC), line)
}

fn check_whole(alloc: Global, spec: &Name, program: &Program) -> Result<(), Fail>
    ensures { Checked result (refused.refusal_of_whole spec.now program.now) tt }
{
    if is_spec(spec, named(program.funcs.as_slice(), spec)) {
        stop_early(alloc, program.early.as_slice())
    } else {
        no_spec()
    }
}

fn check_all(alloc: Global, checking: &Checking<'_>) -> Result<Items<Func>, Fail>
    ensures { Checked result
        (refused.first_refusal (parts_in checking.now.links.now) checking.now.first.now checking.now.second.now checking.now.program.now checking.now.spec.now)
        (refused.resolved_own (parts_in checking.now.links.now) checking.now.first.now checking.now.second.now checking.now.program.now checking.now.spec.now checking.now.program.now.funcs) }
{
    let outside = checking.visible(alloc, Region::Here)?;
    check_declarations(
        alloc,
        refusal::CLIENT_GLOBAL,
        Unit::Client,
        &outside,
        checking.program,
    )?;
    let funcs = checking.check_funcs(alloc)?;
    check_whole(alloc, checking.spec, checking.program)?;
    Ok(funcs)
}

/// The program in its resolved form, or its first refusal as a client of the first and the second program
/// with the function of this name.
pub fn check_program(
    alloc: Global,
    first: &Program,
    second: &Program,
    links: &Links,
    program: Program,
    spec: &Name,
) -> Result<Program, Fail>
    ensures { Checked result
        (refused.first_refusal (parts_in links.now) first.now second.now program spec.now)
        (refused.resolved_client (parts_in links.now) first.now second.now program spec.now) }
{
    let checking = Checking {
        first,
        second,
        links,
        program: &program,
        spec,
    };
    let funcs = check_all(alloc, &checking)?;
    let Program {
        globals,
        protos,
        ..
    } = program;
    Ok(Program {
        globals,
        protos,
        funcs,
        early: Items::new(alloc),
    })
}
