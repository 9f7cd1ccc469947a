//! What the functions of a transformer see.

ghost use Rattle.std.specs.Prelude.{◌≡◌, IfOk, OnOk};
ghost use Rattle.c_types.specs.Code.SeenMeans.{seen_means};
ghost use Rattle.state_xform.specs.Visible as spec;
ghost use Rattle.version_names.specs.Parts.{parts_in};

use c_lang::{Func, GlobalVar, Name, Program, refusal};
use c_types::beside::own_names;
use c_types::declarations::means_of_shape;
use c_types::functions::{arity_as_value, kinds_of};
use c_types::{Means, Symbols};
use std::alloc::{AllocError, Global};
use version_names::{Links, Origin, Part, Sort2, Version, merged_name};

// The name of a version's function is a value as it is there, and 19 refuses a call.
fn version_func(alloc: Global, f: &Func) -> Result<Means, AllocError>
    ensures { IfOk result (λ means. seen_means means ≡ spec.version_func f.now) }
{
    let params = kinds_of(alloc, f.params.as_slice())?;
    let value = arity_as_value(params.as_slice(), f.gives);
    Ok(Means::Code {
        params,
        gives: f.gives,
        value,
        denied: Some(refusal::TRANSFORMER_EFFECT),
    })
}

fn add_prefixed(
    alloc: Global,
    symbols: &mut Symbols,
    origin: Origin,
    name: &Name,
    means: Means,
) -> Result<(), AllocError>
    ensures { OnOk result (symbols.new ≡ spec.with_prefixed origin symbols.old name.now (seen_means means)) }
{
    symbols.add(merged_name(alloc, origin, name)?, means)?;
    symbols.add(name.copy(alloc)?, Means::Refused(refusal::UNKNOWN))
}

fn add_part(
    alloc: Global,
    symbols: &mut Symbols,
    part: Option<Part>,
    name: &Name,
    means: Means,
) -> Result<(), AllocError>
    ensures { OnOk result (symbols.new ≡ spec.with_part part symbols.old name.now (seen_means means)) }
{
    match part {
        Some(Part::Both) => symbols.add(name.copy(alloc)?, means),
        Some(Part::Old) => add_prefixed(alloc, symbols, Origin::Old, name, means),
        Some(Part::New) => add_prefixed(alloc, symbols, Origin::New, name, means),
        None => Ok(()),
    }
}

fn add_cells(
    alloc: Global,
    symbols: &mut Symbols,
    links: &Links,
    version: Version,
    globals: &[GlobalVar],
) -> Result<(), AllocError>
    ensures { OnOk result (symbols.new ≡ spec.with_cells (parts_in links.now) version symbols.old globals.now) }
{
    for g in globals {
        let part = links.of(version, Sort2::Cell, &g.name);
        add_part(alloc, symbols, part, &g.name, means_of_shape(&g.shape))?;
    }
    Ok(())
}

fn add_codes(
    alloc: Global,
    symbols: &mut Symbols,
    links: &Links,
    version: Version,
    funcs: &[Func],
) -> Result<(), AllocError>
    ensures { OnOk result (symbols.new ≡ spec.with_codes (parts_in links.now) version symbols.old funcs.now) }
{
    for f in funcs {
        let part = links.of(version, Sort2::Code, &f.name);
        let means = version_func(alloc, f)?;
        add_part(alloc, symbols, part, &f.name, means)?;
    }
    Ok(())
}

fn add_version(
    alloc: Global,
    symbols: &mut Symbols,
    links: &Links,
    version: Version,
    program: &Program,
) -> Result<(), AllocError>
    ensures { OnOk result (symbols.new ≡ spec.with_version (parts_in links.now) version symbols.old program.now) }
{
    add_cells(alloc, symbols, links, version, program.globals.as_slice())?;
    add_codes(alloc, symbols, links, version, program.funcs.as_slice())
}

/// What the functions of the program see as a transformer of the first program to the second one.
/// The only error is want of memory.
pub fn visible(
    alloc: Global,
    first: &Program,
    second: &Program,
    links: &Links,
    program: &Program,
) -> Result<Symbols, AllocError>
    ensures { IfOk result (λ symbols. symbols ≡ spec.visible (parts_in links.now) first.now second.now program.now) }
{
    let mut symbols = own_names(alloc, None, program)?;
    add_version(alloc, &mut symbols, links, Version::Old, first)?;
    add_version(alloc, &mut symbols, links, Version::New, second)?;
    Ok(symbols)
}
