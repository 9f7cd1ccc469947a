//! Statements, each behind the line that gives its position.

ghost use Rattle.std.specs.Prelude.{◌≡◌, ◌++◌, OnOk, codes, map};
ghost use Rattle.std.specs.Option.{option_map};
ghost use Rattle.c_lang.specs.Trees.{expression_of, statement_of, statements, set_element, call, while_loop, input, point, choice};
ghost use Rattle.merge_printer.specs.Expressions.{expression_text};
ghost use Rattle.merge_printer.specs.Statements as spec;

use crate::declarations::put_target;
use crate::expressions::{put_expression, put_expressions};
use crate::text::{put_number, put_position, put_text};
use c_lang::{Dest, Expr, Name, Pos, Stmt};
use std::alloc::AllocError;

fn put_call(out: &mut Vec<u8>, name: &Name, args: &[Expr]) -> Result<(), AllocError>
    ensures { OnOk result (out.new.items ≡ out.old.items ++ spec.call_text name.now (map expression_of args.now)) }
{
    put_text(out, name.as_bytes())?;
    put_text(out, b"(")?;
    put_expressions(out, args)?;
    put_text(out, b")")
}

// A statement whose text has no parts.
fn put_plain(out: &mut Vec<u8>, pos: Pos, text: &[u8]) -> Result<(), AllocError>
    ensures { OnOk result (out.new.items ≡ out.old.items ++ (spec.position_text pos ++ text.now)) }
{
    put_position(out, pos)?;
    put_text(out, text)
}

fn put_set(out: &mut Vec<u8>, pos: Pos, dest: &Dest, value: &Expr) -> Result<(), AllocError>
    ensures { OnOk result (out.new.items ≡ out.old.items ++ (spec.position_text pos ++ (spec.target dest.now ++ (expression_text (expression_of value.now) ++ codes ";\n")))) }
{
    put_position(out, pos)?;
    put_target(out, dest)?;
    put_expression(out, value)?;
    put_text(out, b";\n")
}

fn put_set_element(
    out: &mut Vec<u8>,
    pos: Pos,
    array: &Name,
    index: &Expr,
    value: &Expr,
) -> Result<(), AllocError>
    ensures { OnOk result (out.new.items ≡ out.old.items ++ spec.statement_text (set_element pos array.now (expression_of index.now) (expression_of value.now))) }
{
    put_position(out, pos)?;
    put_text(out, array.as_bytes())?;
    put_text(out, b"[")?;
    put_expression(out, index)?;
    put_text(out, b"] = ")?;
    put_expression(out, value)?;
    put_text(out, b";\n")
}

// A call by a function's name or by a pointer's.
fn put_call_statement(
    out: &mut Vec<u8>,
    pos: Pos,
    dest: &Dest,
    name: &Name,
    args: &[Expr],
) -> Result<(), AllocError>
    ensures { OnOk result (out.new.items ≡ out.old.items ++ spec.statement_text (call pos dest.now name.now (map expression_of args.now))) }
{
    put_position(out, pos)?;
    put_target(out, dest)?;
    put_call(out, name, args)?;
    put_text(out, b";\n")
}

fn put_return(out: &mut Vec<u8>, pos: Pos, value: &Option<Expr>) -> Result<(), AllocError>
    ensures { OnOk result (out.new.items ≡ out.old.items ++ (spec.position_text pos ++ spec.return_text (option_map expression_of value.now))) }
{
    put_position(out, pos)?;
    match value {
        None => put_text(out, b"return;\n"),
        Some(value) => {
            put_text(out, b"return ")?;
            put_expression(out, value)?;
            put_text(out, b";\n")
        }
    }
}

// An expression between a text and another one.
fn put_between(
    out: &mut Vec<u8>,
    pos: Pos,
    before: &[u8],
    value: &Expr,
    after: &[u8],
) -> Result<(), AllocError>
    ensures { OnOk result (out.new.items ≡ out.old.items ++ (spec.position_text pos ++ (before.now ++ (expression_text (expression_of value.now) ++ after.now)))) }
{
    put_position(out, pos)?;
    put_text(out, before)?;
    put_expression(out, value)?;
    put_text(out, after)
}

fn put_input(out: &mut Vec<u8>, pos: Pos, dest: &Dest) -> Result<(), AllocError>
    ensures { OnOk result (out.new.items ≡ out.old.items ++ spec.statement_text (input pos dest.now)) }
{
    put_position(out, pos)?;
    put_target(out, dest)?;
    put_text(out, b"client_in();\n")
}

fn put_point(out: &mut Vec<u8>, pos: Pos, k: u32) -> Result<(), AllocError>
    ensures { OnOk result (out.new.items ≡ out.old.items ++ spec.statement_text (point pos k)) }
{
    put_position(out, pos)?;
    put_text(out, b"dsu_update(")?;
    put_number(out, k)?;
    put_text(out, b");\n")
}

fn put_choice(out: &mut Vec<u8>, pos: Pos, dest: &Dest, k: u32) -> Result<(), AllocError>
    ensures { OnOk result (out.new.items ≡ out.old.items ++ spec.statement_text (choice pos dest.now k)) }
{
    put_position(out, pos)?;
    put_target(out, dest)?;
    put_text(out, b"dsu_choice(")?;
    put_number(out, k)?;
    put_text(out, b");\n")
}

#[cycle(statement)]
pub(crate) fn put_statements(out: &mut Vec<u8>, stmts: &[Stmt]) -> Result<(), AllocError>
    ensures { OnOk result (out.new.items ≡ out.old.items ++ spec.statements_text (statements (map statement_of stmts.now))) }
{
    for stmt in stmts {
        put_statement(out, stmt)?;
    }
    Ok(())
}

// The end of an `if`: an `else` only where it has a statement.
#[cycle(statement)]
fn put_else(out: &mut Vec<u8>, stmts: &[Stmt]) -> Result<(), AllocError>
    ensures { let body = statements (map statement_of stmts.now) in OnOk result (out.new.items ≡ out.old.items ++ spec.else_text body (spec.statements_text body)) }
{
    if stmts.is_empty() {
        return put_text(out, b"}\n");
    }
    put_text(out, b"} else {\n")?;
    put_statements(out, stmts)?;
    put_text(out, b"}\n")
}

// An `if` up to the end of its first branch.
#[cycle(statement)]
fn put_then(out: &mut Vec<u8>, pos: Pos, yes: &[Stmt], cond: &Expr) -> Result<(), AllocError>
    ensures { OnOk result (out.new.items ≡ out.old.items ++ (spec.position_text pos ++ (codes "if (" ++ (expression_text (expression_of cond.now) ++ (codes ") {\n" ++ spec.statements_text (statements (map statement_of yes.now))))))) }
{
    put_between(out, pos, b"if (", cond, b") {\n")?;
    put_statements(out, yes)
}

#[cycle(statement)]
fn put_while(out: &mut Vec<u8>, pos: Pos, body: &[Stmt], cond: &Expr) -> Result<(), AllocError>
    ensures { OnOk result (out.new.items ≡ out.old.items ++ spec.statement_text (while_loop pos (expression_of cond.now) (statements (map statement_of body.now)))) }
{
    put_between(out, pos, b"while (", cond, b") {\n")?;
    put_statements(out, body)?;
    put_text(out, b"}\n")
}

// A pick up to the end of its first branch.
#[cycle(statement)]
fn put_after(out: &mut Vec<u8>, pos: Pos, after: &Stmt) -> Result<(), AllocError>
    ensures { OnOk result (out.new.items ≡ out.old.items ++ (spec.position_text pos ++ (codes "if (dsu_updated()) {\n" ++ spec.statement_text (statement_of after.now)))) }
{
    put_plain(out, pos, b"if (dsu_updated()) {\n")?;
    put_statement(out, after)
}

// The second branch of a pick.
#[cycle(statement)]
fn put_before(out: &mut Vec<u8>, before: &Stmt) -> Result<(), AllocError>
    ensures { OnOk result (out.new.items ≡ out.old.items ++ (codes "} else {\n" ++ (spec.statement_text (statement_of before.now) ++ codes "}\n"))) }
{
    put_text(out, b"} else {\n")?;
    put_statement(out, before)?;
    put_text(out, b"}\n")
}

#[cycle(statement)]
fn put_statement(out: &mut Vec<u8>, stmt: &Stmt) -> Result<(), AllocError>
    ensures { OnOk result (out.new.items ≡ out.old.items ++ spec.statement_text (statement_of stmt.now)) }
{
    match stmt {
        Stmt::Skip { pos } => put_plain(out, *pos, b";\n"),
        Stmt::Set { pos, dest, value } => put_set(out, *pos, dest, value),
        Stmt::SetElem {
            pos,
            array,
            index,
            value,
        } => put_set_element(out, *pos, array, index, value),
        Stmt::Call {
            pos,
            dest,
            callee,
            args,
        } => put_call_statement(out, *pos, dest, callee, args.as_slice()),
        Stmt::CallBy {
            pos,
            dest,
            pointer,
            args,
        } => put_call_statement(out, *pos, dest, pointer, args.as_slice()),
        Stmt::If { pos, cond, yes, no } => {
            put_then(out, *pos, yes.as_slice(), cond)?;
            put_else(out, no.as_slice())
        }
        Stmt::While { pos, cond, body } => put_while(out, *pos, body.as_slice(), cond),
        Stmt::Break { pos } => put_plain(out, *pos, b"break;\n"),
        Stmt::Return { pos, value } => put_return(out, *pos, value),
        Stmt::Assert { pos, cond } => put_between(out, *pos, b"assert(", cond, b");\n"),
        Stmt::Input { pos, dest } => put_input(out, *pos, dest),
        Stmt::Output { pos, value } => put_between(out, *pos, b"client_out(", value, b");\n"),
        Stmt::Point { pos, k } => put_point(out, *pos, *k),
        Stmt::Choice { pos, dest, k } => put_choice(out, *pos, dest, *k),
        Stmt::Force { pos } => put_plain(out, *pos, b"dsu_force();\n"),
        Stmt::Pick { pos, after, before } => {
            put_after(out, *pos, after.get())?;
            put_before(out, before.get())
        }
    }
}
