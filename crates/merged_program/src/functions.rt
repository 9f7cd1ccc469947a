//! The functions of a merged program. The only error of each function is want of memory.

ghost use Rattle.std.specs.Prelude.{◌≡◌, ◌++◌, ◌∷◌, [], map, unwrap_or, IfOk, OnOk};
ghost use Rattle.std.specs.List.{filter};
ghost use Rattle.std.specs.Option.{option_copied};
ghost use Rattle.c_lang.specs.Programs.{no_func};
ghost use Rattle.c_types.specs.Functions as types;
ghost use Rattle.update_semantics.specs.Linked.{provenance_of};
ghost use Rattle.update_semantics.specs.UpdatingRun.{client_funcs};
ghost use Rattle.version_names.specs.Provenance as origin;
ghost use Rattle.update_semantics.specs.Worlds.{world_of};
ghost use Rattle.merged_program.specs.Code.Built as built;
ghost use Rattle.merged_program.specs.Programs as spec;

use crate::expansions::{hand, return_zero, wrapping};
use crate::globals::is_shared_code;
use crate::names::{parameter, variable};
use crate::statements::body;
use c_lang::{Func, Kind, Name, Pos, Stmt, Unit};
use c_types::endings::can_end;
use c_types::functions::is_main;
use sqlite_items::Items;
use std::alloc::{AllocError, Global};
use update_semantics::{Meanings, Provenance};
use version_names::{Origin, Version, merged_name};

fn params(
    alloc: Global,
    meanings: &Meanings<'_>,
    origin: Provenance,
    params: &[(Kind, Name)],
) -> Result<Items<(Kind, Name)>, AllocError>
    ensures { IfOk result (λ all. all ≡ map (spec.merged_param (world_of meanings.now) (provenance_of origin)) params.now) }
{
    let mut all = Items::new(alloc);
    for param in params {
        all.push((param.0, variable(alloc, meanings, origin, &param.1)?))?;
    }
    Ok(all)
}

fn prefix(origin: Provenance) -> Origin
    ensures { result ≡ built.prefix_of (provenance_of origin) }
{
    match origin {
        Provenance::Old => Origin::Old,
        Provenance::New => Origin::New,
        Provenance::Xform => Origin::Xform,
        Provenance::Client => Origin::Client,
    }
}

// A function of code of this origin, with its merged body.
fn with_body(
    alloc: Global,
    meanings: &Meanings<'_>,
    origin: Provenance,
    f: &Func,
    body: Items<Stmt>,
) -> Result<Func, AllocError>
    ensures { IfOk result (λ merged. merged ≡ built.with_body meanings.now (provenance_of origin) f.now body) }
{
    let name = merged_name(alloc, prefix(origin), &f.name)?;
    let params = params(alloc, meanings, origin, f.params.as_slice())?;
    Ok(Func {
        name,
        params,
        gives: f.gives,
        body,
        pos: f.pos,
    })
}

// Whether the function is a version's `main` whose end can be reached.
fn ends_open(origin: Provenance, f: &Func) -> bool
    ensures { result ≡ built.ends_open (provenance_of origin) f.now }
{
    match origin {
        Provenance::Old | Provenance::New => is_main(&f.name) && can_end(f.body.as_slice()),
        Provenance::Xform | Provenance::Client => false,
    }
}

// A merged body, which gives 0 where it is that of a version's `main` that can end.
fn closed_body(
    alloc: Global,
    meanings: &Meanings<'_>,
    origin: Provenance,
    f: &Func,
) -> Result<Items<Stmt>, AllocError>
    ensures { IfOk result (λ all. all ≡ built.closed_body meanings.now (provenance_of origin) f.now) }
{
    let mut all = body(alloc, meanings, origin, f.body.as_slice())?;
    if ends_open(origin, f) {
        all.push(return_zero(f.pos))?;
    }
    Ok(all)
}

// A function of code of this origin.
fn code_func(
    alloc: Global,
    meanings: &Meanings<'_>,
    origin: Provenance,
    f: &Func,
) -> Result<Func, AllocError>
    ensures { IfOk result (λ merged. merged ≡ built.code_func meanings.now (provenance_of origin) f.now) }
{
    let body = closed_body(alloc, meanings, origin, f)?;
    with_body(alloc, meanings, origin, f, body)
}

// ---- wrappers

fn parameters(alloc: Global, params: &[(Kind, Name)]) -> Result<Items<(Kind, Name)>, AllocError>
    ensures { IfOk result (λ all. all ≡ spec.parameters_from 1 (types.kinds_of params.now)) }
{
    let mut all = Items::new(alloc);
    for (index, param) in params.iter().enumerate() {
        all.push((param.0, parameter(alloc, index + 1)?))?;
    }
    Ok(all)
}

// A wrapper's one statement.
fn wrapper_statement(alloc: Global, f: &Func, params: &[(Kind, Name)]) -> Result<Stmt, AllocError>
    ensures { IfOk result (λ s. s ≡ built.wrapper_statement f.now params.now) }
{
    let new = merged_name(alloc, Origin::New, &f.name)?;
    let old = merged_name(alloc, Origin::Old, &f.name)?;
    wrapping(alloc, f.pos, f.gives, &new, &old, params)
}

// What a wrapper does.
fn wrapper_body(alloc: Global, f: &Func, params: &[(Kind, Name)]) -> Result<Items<Stmt>, AllocError>
    ensures { IfOk result (λ all. all ≡ built.wrapper_statement f.now params.now ∷ []) }
{
    let mut all = Items::new(alloc);
    all.push(wrapper_statement(alloc, f, params)?)?;
    Ok(all)
}

// Calls the current version's function.
fn wrapper(alloc: Global, f: &Func) -> Result<Func, AllocError>
    ensures { IfOk result (λ merged. merged ≡ spec.wrapper f.now) }
{
    let params = parameters(alloc, f.params.as_slice())?;
    let body = wrapper_body(alloc, f, params.as_slice())?;
    let name = merged_name(alloc, Origin::Any, &f.name)?;
    Ok(Func {
        name,
        params,
        gives: f.gives,
        body,
        pos: f.pos,
    })
}

// ---- `main`

// Where a function stands, and whether it gives a value.
fn head_of(f: Option<&Func>) -> (Pos, bool)
    ensures { result ≡ built.head_of f.entry }
{
    match f {
        Some(f) => (f.pos, f.gives),
        None => (
            Pos {
                unit: Unit::Merge,
                line: 1,
            },
            false,
        ),
    }
}

// The body of `main`: a call of the function with which a run begins.
fn starting_body(
    alloc: Global,
    pos: Pos,
    gives: bool,
    callee: &Name,
) -> Result<Items<Stmt>, AllocError>
    ensures { IfOk result (λ all. all ≡ built.starting_body pos gives callee.now) }
{
    let mut all = hand(alloc, pos, gives, callee, &[])?;
    if !gives {
        all.push(return_zero(pos))?;
    }
    Ok(all)
}

// `main` where it begins with this function, which has this merged name.
fn starting(alloc: Global, callee: &Name, f: Option<&Func>) -> Result<Func, AllocError>
    ensures { IfOk result (λ merged. merged ≡ spec.starting callee.now (unwrap_or (option_copied f.entry) no_func)) }
{
    let (pos, gives) = head_of(f);
    let body = starting_body(alloc, pos, gives, callee)?;
    let name = Name::new(alloc, b"main")?;
    Ok(Func {
        name,
        params: Items::new(alloc),
        gives: true,
        body,
        pos,
    })
}

fn main_func(alloc: Global, meanings: &Meanings<'_>) -> Result<Func, AllocError>
    ensures { IfOk result (λ merged. merged ≡ spec.merged_main (world_of meanings.now) (world_of meanings.now).client) }
{
    match meanings.world().client() {
        None => {
            let callee = Name::new(alloc, b"dsu_old_main")?;
            let f = meanings.version_code(Version::Old, b"main").func;
            starting(alloc, &callee, f)
        }
        Some(client) => {
            let callee = merged_name(alloc, Origin::Client, client.spec())?;
            let f = meanings.client_func(client.spec().as_bytes());
            starting(alloc, &callee, f)
        }
    }
}

// ---- all of them

fn add_code(
    alloc: Global,
    meanings: &Meanings<'_>,
    origin: Provenance,
    all: &mut Items<Func>,
    funcs: &[Func],
) -> Result<(), AllocError>
    ensures { OnOk result (all.new ≡ all.old ++ map (built.code_func meanings.now (provenance_of origin)) funcs.now) }
{
    for f in funcs {
        all.push(code_func(alloc, meanings, origin, f)?)?;
    }
    Ok(())
}

fn add_wrappers(
    alloc: Global,
    meanings: &Meanings<'_>,
    all: &mut Items<Func>,
    funcs: &[Func],
) -> Result<(), AllocError>
    ensures { OnOk result (all.new ≡ all.old ++ map spec.wrapper (filter (spec.is_wrapped (world_of meanings.now)) funcs.now)) }
{
    for f in funcs {
        if is_shared_code(meanings, &f.name) {
            all.push(wrapper(alloc, f)?)?;
        }
    }
    Ok(())
}

// The functions of both versions and the wrappers.
fn add_versions(
    alloc: Global,
    meanings: &Meanings<'_>,
    all: &mut Items<Func>,
) -> Result<(), AllocError>
    ensures { OnOk result (all.new ≡ all.old ++ built.version_funcs meanings.now) }
{
    let old = meanings.program(Version::Old).funcs.as_slice();
    let new = meanings.program(Version::New).funcs.as_slice();
    add_code(alloc, meanings, Provenance::Old, all, old)?;
    add_code(alloc, meanings, Provenance::New, all, new)?;
    add_wrappers(alloc, meanings, all, old)
}

// The functions of the client, where there is one.
fn add_client(
    alloc: Global,
    meanings: &Meanings<'_>,
    all: &mut Items<Func>,
) -> Result<(), AllocError>
    ensures { OnOk result (all.new ≡ all.old ++ map (built.code_func meanings.now origin.Client) (client_funcs (world_of meanings.now))) }
{
    match meanings.world().client() {
        Some(client) => {
            let funcs = client.program().funcs.as_slice();
            add_code(alloc, meanings, Provenance::Client, all, funcs)
        }
        None => Ok(()),
    }
}

/// The functions of both versions, the wrappers, the transformer's functions, the client's, and `main`.
pub fn funcs(alloc: Global, meanings: &Meanings<'_>) -> Result<Items<Func>, AllocError>
    ensures { IfOk result (λ all. all ≡ spec.merged_funcs (world_of meanings.now)) }
{
    let mut all = Items::new(alloc);
    add_versions(alloc, meanings, &mut all)?;
    let xform = meanings.world().xform().program().funcs.as_slice();
    add_code(alloc, meanings, Provenance::Xform, &mut all, xform)?;
    add_client(alloc, meanings, &mut all)?;
    all.push(main_func(alloc, meanings)?)?;
    Ok(all)
}
