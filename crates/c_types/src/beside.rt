//! Declarations of a unit that stands beside two versions: it has functions of its own and no globals.

ghost use Rattle.std.specs.Prelude.{◌≡◌, IfOk, OnOk, []};
ghost use Rattle.c_types.specs.Beside as spec;
ghost use Rattle.c_types.specs.Checks.{Checked};
ghost use Rattle.c_types.specs.Code.SeenMeans.{seen_means};
ghost use Rattle.c_types.specs.Programs.{wrong_global};
ghost use Rattle.c_lang.specs.Limits.{cell_limit};

use crate::declarations::{check_globals, check_protos, outside_of};
use crate::functions::kinds_of;
use crate::means::{Means, smaller};
use crate::simple::stop;
use crate::symbols::Symbols;
use c_lang::{Fail, Func, GlobalVar, Program, Refusal, Unit, cell_limit};
use std::alloc::{AllocError, Global};
use std::slice;

// What a function's name stands for in its unit.
fn own_func(alloc: Global, denied: Option<u8>, f: &Func) -> Result<Means, AllocError>
    ensures { IfOk result (λ means. seen_means means ≡ spec.own_func denied f.now) }
{
    Ok(Means::Code {
        params: kinds_of(alloc, f.params.as_slice())?,
        gives: f.gives,
        value: None,
        denied,
    })
}

fn add_own_funcs(
    alloc: Global,
    symbols: &mut Symbols,
    denied: Option<u8>,
    funcs: &[Func],
) -> Result<(), AllocError>
    ensures { OnOk result (symbols.new ≡ spec.with_own_funcs denied symbols.old funcs.now) }
{
    for f in funcs {
        let means = own_func(alloc, denied, f)?;
        symbols.add(f.name.copy(alloc)?, means)?;
    }
    Ok(())
}

/// What the unit declares. `denied` is the number that refuses calls of its functions, where one does.
/// The only error is want of memory.
pub fn own_names(
    alloc: Global,
    denied: Option<u8>,
    program: &Program,
) -> Result<Symbols, AllocError>
    ensures { IfOk result (λ symbols. symbols ≡ spec.own_names denied program.now) }
{
    let mut symbols = outside_of(alloc, program.globals.as_slice(), &[])?;
    add_own_funcs(alloc, &mut symbols, denied, program.funcs.as_slice())?;
    Ok(symbols)
}

// The number that refuses the global, as the first one of a unit that may have globals.
fn wrong_alone(
    alloc: Global,
    unit: Unit,
    early: &[Refusal],
    outside: &Symbols,
    g: &GlobalVar,
) -> Result<Option<u8>, AllocError>
    ensures { IfOk result (λ number. number ≡ wrong_global early.now outside.now [] (cell_limit unit) g.now) }
{
    let mut before = Symbols::new(alloc);
    let room = cell_limit(unit) as usize;
    match check_globals(alloc, early, outside, &mut before, room, slice::from_ref(g)) {
        Ok(()) => Ok(None),
        Err(Fail::Refused(why)) => Ok(Some(why.number)),
        Err(Fail::NoMemory) => Err(AllocError),
    }
}

// Refuses the first global.
fn check_no_global(
    alloc: Global,
    number: u8,
    unit: Unit,
    early: &[Refusal],
    outside: &Symbols,
    globals: &[GlobalVar],
) -> Result<(), Fail>
    ensures { Checked result (spec.refusal_of_first number unit early.now outside.now globals.now) tt }
{
    match globals {
        [] => Ok(()),
        [g, _others @ ..] => {
            let other = wrong_alone(alloc, unit, early, outside, g)?;
            stop(smaller(Some(number), other), g.pos)
        }
    }
}

/// The first refusal of the unit's globals and prototypes. `number` refuses a global.
pub fn check_declarations(
    alloc: Global,
    number: u8,
    unit: Unit,
    outside: &Symbols,
    program: &Program,
) -> Result<(), Fail>
    ensures { Checked result (spec.refusal_of_declarations number unit outside.now program.now) tt }
{
    check_no_global(
        alloc,
        number,
        unit,
        program.early.as_slice(),
        outside,
        program.globals.as_slice(),
    )?;
    check_protos(alloc, program.funcs.as_slice(), program.protos.as_slice())
}
