//! What a statement asks for. Deciding this only reads.

ghost use Rattle.std.specs.Prelude.{◌≡◌};
ghost use Rattle.c_lang.specs.declared.stmt.Stmt.{out-Stmt};
ghost use Rattle.plain_run.specs.Code.Actions.{IsAsked, IsAskedWith, operand};
ghost use Rattle.plain_run.specs.Code.Scopes.{look_in};
ghost use Rattle.plain_run.specs.Code.SeenActions.{seen_operand};
ghost use Rattle.plain_run.specs.Values.{seen_value};

use crate::environment::{Decision, Environment};
use crate::frame::statements;
use crate::run::Run;
use crate::value::Value;
use c_lang::{Dest, Expr, Name, Pos, Stmt, Trap};
use std::slice;

/// What is to be done to the run, with all values that it takes.
pub enum Action<'p, F> {
    Skip,
    Enter(&'p [Stmt]),
    Loop(&'p [Stmt], &'p Stmt),
    Leave,
    Store(&'p Dest, Value<F>),
    StoreElement(&'p Name, i32, i32, Pos),
    /// A call of the function that the value is, or a trap where it is none.
    Call(Value<F>, &'p [Expr], &'p Dest, Pos),
    Return(Value<F>),
    Fault(Trap, Pos),
    Input(&'p Dest),
    Output(i32),
    Choice(&'p Dest, u32),
    /// The update where the answer isn't 0.
    Ask(u32),
    Update,
}

// The expression that a statement evaluates first, and where a trap in it is.
fn operand(statement: &Stmt) -> Option<(&Expr, Pos)>
    ensures { seen_operand result ≡ operand (out-Stmt statement.entry.now) }
{
    match statement {
        Stmt::Set { pos, value, .. } | Stmt::Output { pos, value } => Some((value, *pos)),
        Stmt::SetElem { pos, index, .. } => Some((index, *pos)),
        Stmt::If { pos, cond, .. } | Stmt::While { pos, cond, .. } | Stmt::Assert { pos, cond } => {
            Some((cond, *pos))
        }
        Stmt::Return { pos, value } => match value {
            Some(value) => Some((value, *pos)),
            None => None,
        },
        Stmt::Skip { .. }
        | Stmt::Call { .. }
        | Stmt::CallBy { .. }
        | Stmt::Break { .. }
        | Stmt::Input { .. }
        | Stmt::Choice { .. }
        | Stmt::Point { .. }
        | Stmt::Force { .. }
        | Stmt::Pick { .. } => None,
    }
}

impl<'p, E: Environment<'p>> Run<'p, E> {
    ghost use Rattle.plain_run.specs.Code.SeenActions.{IsDecided, seen_action};

    // What is done at a point, a force or a pick.
    fn decided(&self, statement: &'p Stmt) -> Action<'p, E::Function>
        ensures { IsDecided E.seen (E.rules self.now.environment) (E.state self.now.environment) self.now.stack.top
            statement.entry.now (seen_action E.seen.function result) }
    {
        let origin = self.stack.top.origin;
        match self.environment.decide(origin, statement) {
            Decision::Skip => Action::Skip,
            Decision::Ask(k) => Action::Ask(k),
            Decision::Update => Action::Update,
            Decision::Call {
                callee,
                args,
                dest,
                pos,
            } => {
                let callee = self.environment.code(origin, callee);
                Action::Call(Value::Code(callee), args, dest, pos)
            }
            Decision::Next(statement) => Action::Enter(slice::from_ref(statement)),
        }
    }

    // What the statement asks for once its operand has this value.
    fn asked_with(&self, statement: &'p Stmt, value: Value<E::Function>) -> Action<'p, E::Function>
        ensures { IsAskedWith (IsDecided E.seen (E.rules self.now.environment) (E.state self.now.environment) self.now.stack.top
            statement.entry.now) (E.rules self.now.environment).access.same
            (look_in E.seen (E.rules self.now.environment) (E.state self.now.environment) self.now.stack.top)
            statement.entry.now (out-Stmt statement.entry.now) (seen_value E.seen.function value) (seen_action E.seen.function result) }
    {
        match statement {
            Stmt::Set { dest, .. } => Action::Store(dest, value),
            Stmt::SetElem {
                pos,
                array,
                value: element,
                ..
            } => match self.eval(element) {
                Ok(element) => Action::StoreElement(array, value.number(), element.number(), *pos),
                Err(trap) => Action::Fault(trap, *pos),
            },
            Stmt::Call {
                pos,
                dest,
                callee,
                args,
            } => {
                let callee = self.environment.code(self.stack.top.origin, callee);
                Action::Call(Value::Code(callee), args.as_slice(), dest, *pos)
            }
            Stmt::CallBy {
                pos,
                dest,
                pointer,
                args,
            } => Action::Call(self.value(pointer), args.as_slice(), dest, *pos),
            Stmt::If { yes, no, .. } => {
                if value.is_zero() {
                    Action::Enter(statements(no))
                } else {
                    Action::Enter(statements(yes))
                }
            }
            Stmt::While { body, .. } => {
                if value.is_zero() {
                    Action::Skip
                } else {
                    Action::Loop(statements(body), statement)
                }
            }
            Stmt::Break { .. } => Action::Leave,
            Stmt::Return { .. } => Action::Return(value),
            Stmt::Assert { pos, .. } => {
                if value.is_zero() {
                    Action::Fault(Trap::Assert, *pos)
                } else {
                    Action::Skip
                }
            }
            Stmt::Input { dest, .. } => Action::Input(dest),
            Stmt::Output { .. } => Action::Output(value.number()),
            Stmt::Choice { dest, k, .. } => Action::Choice(dest, *k),
            Stmt::Skip { .. } => Action::Skip,
            Stmt::Point { .. } | Stmt::Force { .. } | Stmt::Pick { .. } => self.decided(statement),
        }
    }

    // What the statement asks for.
    pub(crate) fn asked(&self, statement: &'p Stmt) -> Action<'p, E::Function>
        ensures { IsAsked (IsDecided E.seen (E.rules self.now.environment) (E.state self.now.environment) self.now.stack.top
            statement.entry.now) (E.rules self.now.environment).access.same
            (look_in E.seen (E.rules self.now.environment) (E.state self.now.environment) self.now.stack.top)
            statement.entry.now (out-Stmt statement.entry.now) (seen_action E.seen.function result) }
    {
        match operand(statement) {
            None => self.asked_with(statement, Value::Num(0)),
            Some((expr, pos)) => match self.eval(expr) {
                Ok(value) => self.asked_with(statement, value),
                Err(trap) => Action::Fault(trap, pos),
            },
        }
    }
}
