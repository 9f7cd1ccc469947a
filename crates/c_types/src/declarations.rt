//! Globals and prototypes, and what is visible in the whole unit.

ghost use Rattle.std.specs.Prelude.{◌≡◌, OnOk, IfOk, []};
ghost use Rattle.std.specs.Option.{option_copied};
ghost use Rattle.c_types.specs.Code.SeenMeans.{seen_means, seen_name};
ghost use Rattle.c_types.specs.Checks.{Checked};
ghost use Rattle.c_types.specs.Programs as spec;

use crate::expressions::wrong_function;
use crate::functions::{means_of_func, wrong_params_count};
use crate::means::{Means, smaller};
use crate::scope::wrong_kind;
use crate::simple::stop;
use crate::symbols::Symbols;
use c_lang::{
    ELEMENT_LIMIT, Fail, Func, GlobalVar, Kind, Name, Proto, Refusal, Shape, Unit, refusal,
    same_kinds, same_result,
};
use std::alloc::{AllocError, Global};

/// What the name of a global of this shape stands for.
pub fn means_of_shape(shape: &Shape) -> Means
    ensures { seen_means result ≡ spec.means_of_shape shape.now }
{
    match shape {
        Shape::Int(_) => Means::Cell(Kind::Int),
        Shape::Arr(_) => Means::Array,
        Shape::Fp(n, _) => Means::Cell(Kind::Fp(*n)),
    }
}

fn add_global(alloc: Global, symbols: &mut Symbols, g: &GlobalVar) -> Result<(), AllocError>
    ensures { OnOk result (symbols.new ≡ spec.with_global symbols.old g.now) }
{
    symbols.add(g.name.copy(alloc)?, means_of_shape(&g.shape))
}

/// Adds a function of the unit. The only error is want of memory.
pub fn add_func(alloc: Global, symbols: &mut Symbols, f: &Func) -> Result<(), AllocError>
    ensures { OnOk result (symbols.new ≡ spec.with_func symbols.old f.now) }
{
    let means = means_of_func(alloc, f)?;
    symbols.add(f.name.copy(alloc)?, means)
}

fn add_globals(
    alloc: Global,
    symbols: &mut Symbols,
    globals: &[GlobalVar],
) -> Result<(), AllocError>
    ensures { OnOk result (symbols.new ≡ spec.with_globals symbols.old globals.now) }
{
    for g in globals {
        add_global(alloc, symbols, g)?;
    }
    Ok(())
}

/// Adds functions of the unit. The only error is want of memory.
pub fn add_funcs(alloc: Global, symbols: &mut Symbols, funcs: &[Func]) -> Result<(), AllocError>
    ensures { OnOk result (symbols.new ≡ spec.with_funcs symbols.old funcs.now) }
{
    for f in funcs {
        add_func(alloc, symbols, f)?;
    }
    Ok(())
}

/// What is visible in the whole unit. The only error is want of memory.
pub fn outside_of(
    alloc: Global,
    globals: &[GlobalVar],
    funcs: &[Func],
) -> Result<Symbols, AllocError>
    ensures { IfOk result (λ symbols. symbols ≡ spec.outside_of globals.now funcs.now) }
{
    let mut symbols = Symbols::new(alloc);
    add_globals(alloc, &mut symbols, globals)?;
    add_funcs(alloc, &mut symbols, funcs)?;
    Ok(symbols)
}

/// 7 where the name is there already.
#[tactic(auto, using(crate::proofs::SymbolLaws::is_some_seen))]
pub fn wrong_again(seen: &Symbols, name: &Name) -> Option<u8>
    ensures { result ≡ spec.wrong_again seen.now name.now }
{
    if seen.find(name).is_some() {
        Some(refusal::DUPLICATE)
    } else {
        None
    }
}

fn wrong_initial(outside: &Symbols, shape: &Shape) -> Option<u8>
    ensures { result ≡ spec.wrong_initial outside.now shape.now }
{
    match shape {
        Shape::Int(_) | Shape::Arr(_) | Shape::Fp(_, None) => None,
        Shape::Fp(n, Some(f)) => wrong_function(Kind::Fp(*n), outside.find(f)),
    }
}

fn early_number(early: &[Refusal]) -> u8
    ensures { result ≡ spec.early_number early.now }
{
    match early {
        [why, ..] => why.number,
        [] => refusal::PAST_LIMIT,
    }
}

fn wrong_shape(early: &[Refusal], shape: &Shape) -> Option<u8>
    ensures { result ≡ spec.wrong_shape early.now shape.now }
{
    match shape {
        Shape::Int(_) => None,
        Shape::Arr(elements) => match elements.as_slice() {
            [] => Some(early_number(early)),
            [_z, _zs @ ..] => {
                if elements.len() > ELEMENT_LIMIT as usize {
                    Some(refusal::PAST_LIMIT)
                } else {
                    None
                }
            }
        },
        Shape::Fp(n, _) => wrong_kind(Kind::Fp(*n)),
    }
}

fn cells_of(shape: &Shape) -> usize
    ensures { result ≡ spec.cells_of shape.now }
{
    match shape {
        Shape::Int(_) | Shape::Fp(_, _) => 1,
        Shape::Arr(elements) => elements.len(),
    }
}

fn wrong_cells(room: usize, cells: usize) -> Option<u8>
    ensures { result ≡ spec.wrong_cells room cells }
{
    if cells > room {
        Some(refusal::PAST_LIMIT)
    } else {
        None
    }
}

fn wrong_global(
    early: &[Refusal],
    outside: &Symbols,
    seen: &Symbols,
    room: usize,
    g: &GlobalVar,
) -> Option<u8>
    ensures { result ≡ spec.wrong_global early.now outside.now seen.now room g.now }
{
    let size = smaller(
        wrong_shape(early, &g.shape),
        wrong_cells(room, cells_of(&g.shape)),
    );
    let inside = smaller(wrong_initial(outside, &g.shape), size);
    smaller(wrong_again(seen, &g.name), inside)
}

/// The first refusal of the globals, which are then seen. `room` is how many cells there may be.
pub fn check_globals(
    alloc: Global,
    early: &[Refusal],
    outside: &Symbols,
    seen: &mut Symbols,
    room: usize,
    globals: &[GlobalVar],
) -> Result<(), Fail>
    ensures checked { Checked result (spec.refusal_of_globals early.now outside.now seen.old room globals.now) tt }
    ensures seen { OnOk result (seen.new ≡ spec.with_globals seen.old globals.now) }
{
    let mut left = room;
    for g in globals {
        stop(wrong_global(early, outside, seen, left, g), g.pos)?;
        add_global(alloc, seen, g)?;
        left = left.saturating_sub(cells_of(&g.shape));
    }
    Ok(())
}

fn wrong_match(function: Option<&Means>, p: &Proto) -> Option<u8>
    ensures { result ≡ spec.wrong_match (seen_name (option_copied function.entry)) p.now }
{
    match function {
        Some(Means::Code { params, gives, .. }) => {
            if same_kinds(params.as_slice(), p.params.as_slice()) && same_result(*gives, p.gives) {
                None
            } else {
                Some(refusal::WRONG_KIND)
            }
        }
        Some(Means::Cell(_)) | Some(Means::Array) | Some(Means::Refused(_)) | None => Some(
            refusal::UNKNOWN,
        ),
    }
}

fn wrong_proto(functions: &Symbols, p: &Proto) -> Option<u8>
    ensures { result ≡ spec.wrong_proto functions.now p.now }
{
    smaller(
        wrong_match(functions.find(&p.name), p),
        wrong_params_count(p.params.as_slice()),
    )
}

fn check_each_proto(functions: &Symbols, protos: &[Proto]) -> Result<(), Fail>
    ensures { Checked result (spec.refusal_of_protos functions.now protos.now) tt }
{
    for p in protos {
        stop(wrong_proto(functions, p), p.pos)?;
    }
    Ok(())
}

/// The first refusal of the prototypes.
pub fn check_protos(alloc: Global, funcs: &[Func], protos: &[Proto]) -> Result<(), Fail>
    ensures { Checked result (spec.refusal_of_protos (spec.with_funcs [] funcs.now) protos.now) tt }
{
    let mut functions = Symbols::new(alloc);
    add_funcs(alloc, &mut functions, funcs)?;
    check_each_proto(&functions, protos)
}
