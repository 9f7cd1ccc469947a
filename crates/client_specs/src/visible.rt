//! What the functions of a client see. The only error of each function is want of memory.

ghost use Rattle.std.specs.Prelude.{◌≡◌, IfOk, OnOk, map, [], ◌∷◌};
ghost use Rattle.c_lang.specs.Refusals.{client_call, client_global};
ghost use Rattle.c_lang.specs.declared.program.Func.{Func};
ghost use Rattle.c_lang.specs.declared.program.GlobalVar.{GlobalVar};
ghost use Rattle.client_specs.specs.Visible as spec;
ghost use Rattle.version_names.specs.Parts.{parts_in};

use crate::region::Region;
use c_lang::{Func, GlobalVar, Name, Program, refusal};
use c_types::beside::own_names;
use c_types::declarations::{add_func, add_funcs};
use c_types::{Means, Symbols};
use std::alloc::{AllocError, Global};
use version_names::{Links, Part, Sort2, Version};

fn is_both(part: Option<Part>) -> bool
    ensures { result ≡ spec.is_both part }
{
    match part {
        Some(Part::Both) => true,
        Some(Part::Old) | Some(Part::New) | None => false,
    }
}

fn add_shared(
    alloc: Global,
    symbols: &mut Symbols,
    links: &Links,
    funcs: &[Func],
) -> Result<(), AllocError>
    ensures { OnOk result (symbols.new ≡ spec.with_shared (parts_in links.now) symbols.old funcs.now) }
{
    for f in funcs {
        if is_both(links.of(Version::Old, Sort2::Code, &f.name)) {
            add_func(alloc, symbols, f)?;
        }
    }
    Ok(())
}

fn add_callable(
    alloc: Global,
    symbols: &mut Symbols,
    links: &Links,
    region: Region,
    first: &Program,
    second: &Program,
) -> Result<(), AllocError>
    ensures { OnOk result (symbols.new ≡ spec.with_callable (parts_in links.now) region first.now second.now symbols.old) }
{
    match region {
        Region::Here => add_shared(alloc, symbols, links, first.funcs.as_slice()),
        Region::Behind | Region::After => add_funcs(alloc, symbols, second.funcs.as_slice()),
        Region::Before => add_funcs(alloc, symbols, first.funcs.as_slice()),
    }
}

fn denied_in(region: Region) -> Option<u8>
    ensures { result ≡ spec.denied_in region }
{
    match region {
        Region::Here | Region::Behind => None,
        Region::After | Region::Before => Some(refusal::CLIENT_CALL),
    }
}

fn bar(alloc: Global, symbols: &mut Symbols, number: u8, name: &Name) -> Result<(), AllocError>
    ensures { OnOk result (symbols.new ≡ spec.with_barred number symbols.old (name.now ∷ [])) }
{
    symbols.add(name.copy(alloc)?, Means::Refused(number))
}

fn bar_cells(alloc: Global, symbols: &mut Symbols, globals: &[GlobalVar]) -> Result<(), AllocError>
    ensures { OnOk result (symbols.new ≡ spec.with_barred client_global symbols.old (map (λ (g : GlobalVar). g.name) globals.now)) }
{
    for g in globals {
        bar(alloc, symbols, refusal::CLIENT_GLOBAL, &g.name)?;
    }
    Ok(())
}

fn bar_codes(alloc: Global, symbols: &mut Symbols, funcs: &[Func]) -> Result<(), AllocError>
    ensures { OnOk result (symbols.new ≡ spec.with_barred client_call symbols.old (map (λ (f : Func). f.name) funcs.now)) }
{
    for f in funcs {
        bar(alloc, symbols, refusal::CLIENT_CALL, &f.name)?;
    }
    Ok(())
}

/// What the functions of the program see in this region, as a client of the first and the second program.
pub fn visible(
    alloc: Global,
    first: &Program,
    second: &Program,
    links: &Links,
    region: Region,
    program: &Program,
) -> Result<Symbols, AllocError>
    ensures { IfOk result (λ symbols. symbols ≡ spec.visible (parts_in links.now) region first.now second.now program.now) }
{
    let mut symbols = own_names(alloc, denied_in(region), program)?;
    add_callable(alloc, &mut symbols, links, region, first, second)?;
    bar_cells(alloc, &mut symbols, first.globals.as_slice())?;
    bar_cells(alloc, &mut symbols, second.globals.as_slice())?;
    bar_codes(alloc, &mut symbols, first.funcs.as_slice())?;
    bar_codes(alloc, &mut symbols, second.funcs.as_slice())?;
    Ok(symbols)
}
