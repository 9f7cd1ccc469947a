ghost use Rattle.std.specs.Prelude.{◌≡◌, [], IfOk, map, drop, List, ℕ};
ghost use Rattle.c_lang.specs.declared.stmt.Dest.TheVariants.{Nowhere};
ghost use Rattle.plain_run.specs.Steps.{Access, Does, bound, frame_of};
ghost use Rattle.plain_run.specs.Environments.{func_or_none, seen_definition};
ghost use Rattle.plain_run.specs.Code.Calls.{first_or_zero};
ghost use Rattle.plain_run.specs.Code.Frames.{dest_of, seen_frame, seen_items};
ghost use Rattle.plain_run.specs.Code.Names.{seen_locals};
ghost use Rattle.plain_run.specs.Values.{seen_value};

use crate::environment::{Definition, Environment};
use crate::frame::{Frame, Rest, statements};
use crate::names::Values;
use crate::value::Value;
use c_lang::{Dest, Func, Kind, Name};
use indexmap::IndexMap;
use std::alloc::{AllocError, Global};

// The argument at an index, and 0 where there is none.
fn argument<'p, E: Environment<'p>>(args: &[Value<E::Function>], at: usize) -> Value<E::Function>
    ensures { seen_value E.seen.function result ≡
        first_or_zero (drop at (map (seen_value E.seen.function) args.now)) }
{
    match args.get(at) {
        Some(value) => *value,
        None => Value::Num(0),
    }
}

// The parameters with the arguments. Of several with one name the first counts.
fn bound<'p, E: Environment<'p>>(
    alloc: Global,
    params: &'p [(Kind, Name)],
    args: &[Value<E::Function>],
) -> Result<Values<'p, E::Function>, AllocError>
    ensures { IfOk result (λ locals. (x : List ℕ) → seen_locals E.seen.function locals.entries x
        ≡ bound params.entry.now (map (seen_value E.seen.function) args.now) x) }
{
    let mut locals = IndexMap::new(alloc);
    let mut left = params.len();
    while left > 0 {
        left -= 1;
        locals.insert(&params[left].1, argument::<E>(args, left))?;
    }
    Ok(locals)
}

// What a function's frame has to run first.
fn whole_body<'p>(alloc: Global, func: &'p Func) -> Result<Vec<Rest<'p>>, AllocError>
    ensures { IfOk result (λ rest. seen_items rest.items ≡ map Does func.entry.now.body) }
{
    let mut rest = Vec::new(alloc);
    rest.push(Rest::Body(statements(&func.body)))?;
    Ok(rest)
}

/// The frame of a call.
pub(crate) fn frame_of<'p, E: Environment<'p>>(
    alloc: Global,
    definition: Definition<'p, E::Origin>,
    args: &[Value<E::Function>],
    dest: Option<&'p Dest>,
) -> Result<Frame<'p, E::Function, E::Origin>, AllocError>
    ensures { IfOk result (λ frame. (N : Access E.F E.State E.O) → seen_frame E.seen frame ≡
        frame_of N (seen_definition E.seen.origin definition.entry)
        (map (seen_value E.seen.function) args.now) (dest_of dest.entry)) }
{
    let origin = definition.origin;
    match definition.func {
        None => Ok(Frame {
            origin,
            locals: IndexMap::new(alloc),
            rest: Vec::new(alloc),
            dest,
            gives: false,
        }),
        Some(func) => {
            let rest = whole_body(alloc, func)?;
            let locals = bound::<E>(alloc, func.params.as_slice(), args)?;
            Ok(Frame {
                origin,
                locals,
                rest,
                dest,
                gives: func.gives,
            })
        }
    }
}

/// The frame of a call without arguments, whose result goes nowhere.
pub(crate) fn first_frame<'p, E: Environment<'p>>(
    alloc: Global,
    definition: Definition<'p, E::Origin>,
) -> Result<Frame<'p, E::Function, E::Origin>, AllocError>
    ensures { IfOk result (λ frame. (N : Access E.F E.State E.O) → seen_frame E.seen frame ≡
        frame_of N (seen_definition E.seen.origin definition.entry) [] Nowhere) }
{
    let none = Vec::new(alloc);
    frame_of::<E>(alloc, definition, &none, None)
}
