//! The functions whose names are values in a program.

ghost use Rattle.std.specs.Prelude.{◌≡◌, ◌||◌, IfOk, OnOk, map, filter};
ghost use Rattle.std.specs.Str.{bytes_eq};
ghost use Rattle.c_lang.specs.Names.{Bytes};
ghost use Rattle.c_lang.specs.Trees.{expression_of, statement_of, statements};
ghost use Rattle.expression_conditions.specs.Candidates as spec;
ghost use Rattle.expression_conditions.specs.Code.Sets.{has};

use c_lang::{Expr, Func, GlobalVar, Name, Program, Shape, Stmt};
use name_tables::NameTable;
use std::alloc::{AllocError, Global};

fn add<'p>(set: &mut NameTable<'p, bool>, name: &'p Name) -> Result<(), AllocError>
    ensures { OnOk result ((x : Bytes) → has set.new x ≡ (bytes_eq name.entry.now x || has set.old x)) }
{
    set.put(name, true)?;
    Ok(())
}

/// Adds the functions whose names are values in the expression. The only error is want of memory.
pub(crate) fn add_values<'p>(
    set: &mut NameTable<'p, bool>,
    expr: &'p Expr,
) -> Result<(), AllocError>
    ensures { OnOk result ((x : Bytes) → has set.new x ≡ (spec.names x (expression_of expr.entry.now) || has set.old x)) }
{
    match expr {
        Expr::Lit(_) => Ok(()),
        Expr::Var(_) => Ok(()),
        Expr::Elem(_, index) => add_values(set, index.get()),
        Expr::FunRef(name) => add(set, name),
        Expr::Null => Ok(()),
        Expr::Neg(operand) => add_values(set, operand.get()),
        Expr::Not(operand) => add_values(set, operand.get()),
        Expr::Bin(_, left, right) => {
            add_values(set, left.get())?;
            add_values(set, right.get())
        }
    }
}

fn add_values_of_all<'p>(set: &mut NameTable<'p, bool>, exprs: &'p [Expr]) -> Result<(), AllocError>
    ensures { OnOk result ((x : Bytes) → has set.new x ≡ (spec.some_names x (map expression_of exprs.entry.now) || has set.old x)) }
{
    for expr in exprs {
        add_values(set, expr)?;
    }
    Ok(())
}

fn add_values_of_two<'p>(
    set: &mut NameTable<'p, bool>,
    first: &'p Expr,
    second: &'p Expr,
) -> Result<(), AllocError>
    ensures { OnOk result ((x : Bytes) → has set.new x ≡
        ((spec.names x (expression_of first.entry.now) || spec.names x (expression_of second.entry.now)) || has set.old x)) }
{
    add_values(set, first)?;
    add_values(set, second)
}

#[cycle(add_in_statement)]
fn add_in_statement<'p>(set: &mut NameTable<'p, bool>, stmt: &'p Stmt) -> Result<(), AllocError>
    ensures { OnOk result ((x : Bytes) → has set.new x ≡ (spec.statement_names x (statement_of stmt.entry.now) || has set.old x)) }
{
    match stmt {
        Stmt::Skip { .. } => Ok(()),
        Stmt::Set { value, .. } => add_values(set, value),
        Stmt::SetElem { index, value, .. } => add_values_of_two(set, index, value),
        Stmt::Call { args, .. } => add_values_of_all(set, args.as_slice()),
        Stmt::CallBy { args, .. } => add_values_of_all(set, args.as_slice()),
        Stmt::If { cond, yes, no, .. } => {
            add_values(set, cond)?;
            add_in_body(set, yes.as_slice())?;
            add_in_body(set, no.as_slice())
        }
        Stmt::While { cond, body, .. } => {
            add_values(set, cond)?;
            add_in_body(set, body.as_slice())
        }
        Stmt::Break { .. } => Ok(()),
        Stmt::Return { value: None, .. } => Ok(()),
        Stmt::Return {
            value: Some(value),
            ..
        } => add_values(set, value),
        Stmt::Assert { cond, .. } => add_values(set, cond),
        Stmt::Input { .. } => Ok(()),
        Stmt::Output { value, .. } => add_values(set, value),
        Stmt::Point { .. } => Ok(()),
        Stmt::Choice { .. } => Ok(()),
        Stmt::Force { .. } => Ok(()),
        Stmt::Pick { after, before, .. } => {
            add_in_statement(set, after.get())?;
            add_in_statement(set, before.get())
        }
    }
}

#[cycle(add_in_statement)]
fn add_in_body<'p>(set: &mut NameTable<'p, bool>, stmts: &'p [Stmt]) -> Result<(), AllocError>
    ensures { OnOk result ((x : Bytes) → has set.new x ≡ (spec.body_names x (statements (map statement_of stmts.entry.now)) || has set.old x)) }
{
    for stmt in stmts {
        add_in_statement(set, stmt)?;
    }
    Ok(())
}

fn add_in_funcs<'p>(set: &mut NameTable<'p, bool>, funcs: &'p [Func]) -> Result<(), AllocError>
    ensures { OnOk result ((x : Bytes) → has set.new x ≡ (spec.some_body_names x funcs.entry.now || has set.old x)) }
{
    for func in funcs {
        add_in_body(set, func.body.as_slice())?;
    }
    Ok(())
}

fn add_start<'p>(set: &mut NameTable<'p, bool>, shape: &'p Shape) -> Result<(), AllocError>
    ensures { OnOk result ((x : Bytes) → has set.new x ≡ (spec.starts_with x shape.entry.now || has set.old x)) }
{
    match shape {
        Shape::Int(_) => Ok(()),
        Shape::Arr(_) => Ok(()),
        Shape::Fp(_, None) => Ok(()),
        Shape::Fp(_, Some(name)) => add(set, name),
    }
}

fn add_starts<'p>(set: &mut NameTable<'p, bool>, globals: &'p [GlobalVar]) -> Result<(), AllocError>
    ensures { OnOk result ((x : Bytes) → has set.new x ≡ (spec.some_start x globals.entry.now || has set.old x)) }
{
    for global in globals {
        add_start(set, &global.shape)?;
    }
    Ok(())
}

fn listed<'p>(
    alloc: Global,
    set: &NameTable<'p, bool>,
    funcs: &'p [Func],
) -> Result<Vec<&'p Func>, AllocError>
    ensures { IfOk result (λ all. map (λ f. f.now) all.items ≡ filter (λ d. has set.now d.name) funcs.entry.now) }
{
    let mut all = Vec::new(alloc);
    for func in funcs {
        if set.get(&func.name).is_some() {
            all.push(func)?;
        }
    }
    Ok(all)
}

/// The functions whose names are values somewhere in the program, in the order of their declarations. The only
/// error is want of memory.
pub fn value_functions<'p>(alloc: Global, program: &'p Program) -> Result<Vec<&'p Func>, AllocError>
    ensures { IfOk result (λ all. map (λ f. f.now) all.items ≡ spec.value_functions program.entry.now) }
{
    let mut set = NameTable::new(alloc);
    add_in_funcs(&mut set, program.funcs.as_slice())?;
    add_starts(&mut set, program.globals.as_slice())?;
    let all = listed(alloc, &set, program.funcs.as_slice())?;
    Ok(all)
}
