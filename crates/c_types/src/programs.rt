//! Whole programs: globals, prototypes, functions, then what the program as a whole must have.

ghost use Rattle.std.specs.Prelude.{◌≡◌, IfOk, OnOk, false};
ghost use Rattle.c_types.specs.Code.SeenScopes.{seen_scope};
ghost use Rattle.c_types.specs.Functions.{IsPlain};
ghost use Rattle.c_types.specs.Checks.{Checked};
ghost use Rattle.c_types.specs.Programs as spec;

use crate::declarations::{add_func, check_globals, check_protos, outside_of, wrong_again};
use crate::functions::{check_plain_func, is_main};
use crate::scope::Scope;
use crate::simple::stop;
use crate::symbols::Symbols;
use c_lang::{Fail, Func, Kind, Name, Pos, Program, Refusal, Unit, cell_limit, refusal};
use sqlite_items::Items;
use std::alloc::{AllocError, Global};

/// The functions of a unit in which no force and no pick may stand, with their bodies in the resolved
/// form, or the first refusal. `seen` has the names that are declared before them.
pub fn check_funcs(
    alloc: Global,
    scope: &mut Scope,
    seen: &mut Symbols,
    funcs: &[Func],
) -> Result<Items<Func>, Fail>
    requires { IsPlain (seen_scope scope.old) }
    ensures { spec.AreFuncs scope.old.outside scope.old.xform seen.old funcs.now result }
{
    let mut all = Items::new(alloc);
    for f in funcs {
        let again = wrong_again(seen, &f.name);
        all.push(check_plain_func(alloc, scope, again, f)?)?;
        add_func(alloc, seen, f)?;
    }
    Ok(all)
}

/// Whether there are no parameters.
pub fn has_none(params: &[(Kind, Name)]) -> bool
    ensures { result ≡ spec.is_empty params.now }
{
    match params {
        [] => true,
        [_p, _ps @ ..] => false,
    }
}

fn is_start(f: &Func) -> bool
    ensures { result ≡ spec.is_start f.now }
{
    is_main(&f.name) && f.gives && has_none(f.params.as_slice())
}

fn has_main(funcs: &[Func]) -> bool
    ensures { result ≡ spec.has_main funcs.now }
{
    for f in funcs {
        if is_start(f) {
            return true;
        }
    }
    false
}

fn wrong_main(funcs: &[Func]) -> Option<u8>
    ensures { result ≡ spec.wrong_main funcs.now }
{
    if has_main(funcs) {
        None
    } else {
        Some(refusal::NO_START)
    }
}

fn check_bodies(
    alloc: Global,
    outside: Symbols,
    seen: &mut Symbols,
    funcs: &[Func],
) -> Result<Items<Func>, Fail>
    ensures { spec.AreFuncs outside false seen.old funcs.now result }
{
    let mut scope = Scope {
        outside,
        forced: None,
        picks: None,
        locals: Symbols::new(alloc),
        told: Symbols::new(alloc),
        ahead: Symbols::new(alloc),
        gives: false,
        xform: false,
    };
    check_funcs(alloc, &mut scope, seen, funcs)
}

fn first_line(unit: Unit) -> Pos
    ensures { result ≡ spec.first_line unit }
{
    Pos { unit, line: 1 }
}

fn copy_name(alloc: Global, name: &Option<Name>) -> Result<Option<Name>, AllocError>
    ensures { IfOk result (λ copy. copy ≡ name.now) }
{
    match name {
        None => Ok(None),
        Some(name) => Ok(Some(name.copy(alloc)?)),
    }
}

/// The first refusal that the parser noted for a declaration, or want of memory.
pub fn stop_early(alloc: Global, early: &[Refusal]) -> Result<(), Fail>
    ensures { Checked result (spec.first_early early.now) tt }
{
    let [why, _others @ ..] = early else {
        return Ok(());
    };
    let name = copy_name(alloc, &why.name)?;
    Err(Fail::Refused(Refusal {
        number: why.number,
        pos: why.pos,
        name,
    }))
}

fn check_whole(alloc: Global, unit: Unit, program: &Program) -> Result<(), Fail>
    ensures { Checked result (spec.refusal_of_whole unit program.now) tt }
{
    stop(wrong_main(program.funcs.as_slice()), first_line(unit))?;
    stop_early(alloc, program.early.as_slice())
}

fn check_declarations(
    alloc: Global,
    unit: Unit,
    outside: &Symbols,
    seen: &mut Symbols,
    program: &Program,
) -> Result<(), Fail>
    ensures checked { Checked result (spec.refusal_of_declarations unit outside.now seen.old program.now) tt }
    ensures seen { OnOk result (seen.new ≡ spec.with_globals seen.old program.now.globals) }
{
    let early = program.early.as_slice();
    let globals = program.globals.as_slice();
    check_globals(
        alloc,
        early,
        outside,
        seen,
        cell_limit(unit) as usize,
        globals,
    )?;
    check_protos(alloc, program.funcs.as_slice(), program.protos.as_slice())
}

fn check_all(alloc: Global, unit: Unit, program: &Program) -> Result<Items<Func>, Fail>
    ensures { Checked result (spec.first_refusal unit program.now) (spec.resolved_funcs (spec.outside_of program.now.globals program.now.funcs) false program.now.funcs) }
{
    let outside = outside_of(alloc, program.globals.as_slice(), program.funcs.as_slice())?;
    let mut seen = Symbols::new(alloc);
    check_declarations(alloc, unit, &outside, &mut seen, program)?;
    let funcs = check_bodies(alloc, outside, &mut seen, program.funcs.as_slice())?;
    check_whole(alloc, unit, program)?;
    Ok(funcs)
}

/// The program in its resolved form, or its first refusal.
pub fn check_program(alloc: Global, unit: Unit, program: Program) -> Result<Program, Fail>
    ensures { Checked result (spec.first_refusal unit program) (spec.resolved_program program) }
{
    let funcs = check_all(alloc, unit, &program)?;
    let Program {
        globals,
        protos,
        ..
    } = program;
    Ok(Program {
        globals,
        protos,
        funcs,
        early: Items::new(alloc),
    })
}
