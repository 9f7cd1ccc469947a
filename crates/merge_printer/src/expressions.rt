//! Expressions, with brackets only where grouping needs them.

ghost use Rattle.std.specs.Prelude.{◌≡◌, ◌++◌, ◌+◌, OnOk, map, codes};
ghost use Rattle.c_lang.specs.Operators.{level, operator_text};
ghost use Rattle.c_lang.specs.Trees.{expression_of, element, negation, logical_not};
ghost use Rattle.merge_printer.specs.Expressions as spec;

use crate::text::{put_signed, put_text};
use c_lang::{Expr, Name, Op};
use std::alloc::AllocError;

// How tightly the outermost operator binds; 7 where there is none, or a unary one.
fn binding(expr: &Expr) -> u8
    ensures { result ≡ spec.binds (expression_of expr.now) }
{
    match expr {
        Expr::Bin(op, _, _) => op.level(),
        _ => 7,
    }
}

// A space where the operand of a sign begins with a sign.
fn put_gap(out: &mut Vec<u8>, expr: &Expr) -> Result<(), AllocError>
    ensures { OnOk result (out.new.items ≡ out.old.items ++ spec.gap (expression_of expr.now)) }
{
    if let Expr::Neg(_) = expr {
        out.push(b' ')?;
    }
    Ok(())
}

// An operand, in brackets where it binds less tightly than its place asks.
#[cycle(expression)]
fn put_operand(out: &mut Vec<u8>, least: u8, expr: &Expr) -> Result<(), AllocError>
    ensures { OnOk result (out.new.items ≡ out.old.items ++ spec.in_place least (spec.binds (expression_of expr.now)) (spec.expression_text (expression_of expr.now))) }
{
    if binding(expr) < least {
        out.push(b'(')?;
        put_expression(out, expr)?;
        out.push(b')')?;
        Ok(())
    } else {
        put_expression(out, expr)
    }
}

#[cycle(expression)]
fn put_element(out: &mut Vec<u8>, name: &Name, index: &Expr) -> Result<(), AllocError>
    ensures { OnOk result (out.new.items ≡ out.old.items ++ spec.expression_text (element name.now (expression_of index.now))) }
{
    put_text(out, name.as_bytes())?;
    put_text(out, b"[")?;
    put_expression(out, index)?;
    put_text(out, b"]")
}

#[cycle(expression)]
fn put_negation(out: &mut Vec<u8>, operand: &Expr) -> Result<(), AllocError>
    ensures { OnOk result (out.new.items ≡ out.old.items ++ spec.expression_text (negation (expression_of operand.now))) }
{
    put_text(out, b"-")?;
    put_gap(out, operand)?;
    put_operand(out, 7, operand)
}

#[cycle(expression)]
fn put_not(out: &mut Vec<u8>, operand: &Expr) -> Result<(), AllocError>
    ensures { OnOk result (out.new.items ≡ out.old.items ++ spec.expression_text (logical_not (expression_of operand.now))) }
{
    put_text(out, b"!")?;
    put_operand(out, 7, operand)
}

// An operator and what stands behind it.
#[cycle(expression)]
fn put_right(out: &mut Vec<u8>, op: Op, right: &Expr) -> Result<(), AllocError>
    ensures { OnOk result (out.new.items ≡ out.old.items ++ (codes " " ++ (operator_text op ++ (codes " " ++ spec.in_place (level op + 1) (spec.binds (expression_of right.now)) (spec.expression_text (expression_of right.now)))))) }
{
    put_text(out, b" ")?;
    put_text(out, op.as_bytes())?;
    put_text(out, b" ")?;
    put_operand(out, op.level() + 1, right)
}

#[cycle(expression)]
pub(crate) fn put_expression(out: &mut Vec<u8>, expr: &Expr) -> Result<(), AllocError>
    ensures { OnOk result (out.new.items ≡ out.old.items ++ spec.expression_text (expression_of expr.now)) }
{
    match expr {
        Expr::Lit(number) => put_signed(out, *number),
        Expr::Var(name) => put_text(out, name.as_bytes()),
        Expr::Elem(name, index) => put_element(out, name, index.get()),
        Expr::FunRef(name) => put_text(out, name.as_bytes()),
        Expr::Null => put_text(out, b"0"),
        Expr::Neg(operand) => put_negation(out, operand.get()),
        Expr::Not(operand) => put_not(out, operand.get()),
        Expr::Bin(op, left, right) => {
            put_operand(out, op.level(), left.get())?;
            put_right(out, *op, right.get())
        }
    }
}

// What stands behind the first of some expressions.
fn put_more_expressions(out: &mut Vec<u8>, exprs: &[Expr]) -> Result<(), AllocError>
    ensures { OnOk result (out.new.items ≡ out.old.items ++ spec.more_expressions (map expression_of exprs.now)) }
{
    for expr in exprs {
        put_text(out, b", ")?;
        put_expression(out, expr)?;
    }
    Ok(())
}

pub(crate) fn put_expressions(out: &mut Vec<u8>, exprs: &[Expr]) -> Result<(), AllocError>
    ensures { OnOk result (out.new.items ≡ out.old.items ++ spec.expressions_text (map expression_of exprs.now)) }
{
    match exprs {
        [] => Ok(()),
        [first, rest @ ..] => {
            put_expression(out, first)?;
            put_more_expressions(out, rest)
        }
    }
}
