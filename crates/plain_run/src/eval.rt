//! The value of an expression.

ghost use Rattle.std.specs.Prelude.{◌≡◌, IfOk, List, ℕ, Ok};
ghost use Rattle.c_lang.specs.Trees.{expression_of};
ghost use Rattle.c_lang.specs.Evaluation as evaluation;
ghost use Rattle.c_lang.specs.Evaluation.{ev, element_at, joined};
ghost use Rattle.plain_run.specs.Code.Arithmetic.{numbered};
ghost use Rattle.plain_run.specs.Code.Calls.{seen_arguments, values_in};
ghost use Rattle.plain_run.specs.Environments.{seen_callee};
ghost use Rattle.plain_run.specs.Values.{seen_value, seen_answer};

use crate::environment::{Callee, Environment, Look};
use crate::frame::Frame;
use crate::run::Run;
use crate::value::{Answer, Value, applied, negated, settled, truth};
use c_lang::{Expr, Name, Op, Trap};
use std::alloc::{AllocError, Global};

/// What names stand for: a local where the frame has the name, else what the environment says.
#[derive(Drop)]
struct Scope<'a, 'p, E: Look> {
    environment: &'a E,
    frame: &'a Frame<'p, E::Function, E::Origin>,
}

// A value whose function is known.
fn known<'p, E: Look>(value: Value<E::Function>) -> Value<Callee<'p, E::Function>>
    ensures { (code : List ℕ → E.F) →
        seen_value (seen_callee E.seen.function code) result ≡ seen_value E.seen.function value }
{
    match value {
        Value::Num(number) => Value::Num(number),
        Value::Code(function) => Value::Code(Callee::Known(function)),
        Value::Null => Value::Null,
    }
}

// A number as an answer.
fn answer<'p, E: Look>(number: Result<i32, Trap>) -> Answer<Callee<'p, E::Function>>
    ensures { (code : List ℕ → E.F) → seen_answer (seen_callee E.seen.function code) result ≡ numbered number }
{
    match number {
        Ok(number) => Ok(Value::Num(number)),
        Err(trap) => Err(trap),
    }
}

impl<'p, E: Look> Scope<'_, 'p, E> {
    ghost use Rattle.plain_run.specs.Code.Scopes.{callee_in, look_in};

    // A name's value, and 0 where nothing has the name.
    fn value(&self, name: &'p Name) -> Value<E::Function>
        ensures { seen_value E.seen.function result ≡ (look_in E.seen (E.rules self.now.environment.now) (E.state self.now.environment.now) self.now.frame.now).value name.entry.now }
    {
        match self.frame.locals.get(&name) {
            Some(value) => *value,
            None => self.environment.value(self.frame.origin, name),
        }
    }

    // An array's element.
    fn element(&self, array: &Name, at: i32) -> Answer<Callee<'p, E::Function>>
        ensures { seen_answer (callee_in E.seen (E.rules self.now.environment.now) (E.state self.now.environment.now) self.now.frame.now) result ≡ element_at ((look_in E.seen (E.rules self.now.environment.now) (E.state self.now.environment.now) self.now.frame.now).elements array.now) at }
    {
        if at < 0 {
            return Err(Trap::Index);
        }
        let elements = self.environment.elements(self.frame.origin, array);
        match elements.get(at as usize) {
            Some(element) => Ok(Value::Num(*element)),
            None => Err(Trap::Index),
        }
    }

    fn same_value(
        &self,
        left: Value<Callee<'p, E::Function>>,
        right: Value<Callee<'p, E::Function>>,
    ) -> bool
        ensures { result ≡ evaluation.same_value (E.rules self.now.environment.now).access.same
            (seen_value (callee_in E.seen (E.rules self.now.environment.now) (E.state self.now.environment.now) self.now.frame.now) left.entry) (seen_value (callee_in E.seen (E.rules self.now.environment.now) (E.state self.now.environment.now) self.now.frame.now) right.entry) }
    {
        match (left, right) {
            (Value::Num(a), Value::Num(b)) => a == b,
            (Value::Code(f), Value::Code(g)) => self.environment.same(self.frame.origin, f, g),
            (Value::Null, Value::Null) => true,
            _ => false,
        }
    }

    // An operator on the values of both operands.
    fn applied(
        &self,
        op: Op,
        left: Value<Callee<'p, E::Function>>,
        right: Value<Callee<'p, E::Function>>,
    ) -> Answer<Callee<'p, E::Function>>
        ensures { seen_answer (callee_in E.seen (E.rules self.now.environment.now) (E.state self.now.environment.now) self.now.frame.now) result ≡ evaluation.applied (E.rules self.now.environment.now).access.same op
            (seen_value (callee_in E.seen (E.rules self.now.environment.now) (E.state self.now.environment.now) self.now.frame.now) left.entry) (seen_value (callee_in E.seen (E.rules self.now.environment.now) (E.state self.now.environment.now) self.now.frame.now) right.entry) }
    {
        let a = left.number();
        let b = right.number();
        let same = self.same_value(left, right);
        answer::<E>(applied(op, a, b, same))
    }

    // What an operator gives with this left operand. `&&` and `||` read the right one only where the left
    // one doesn't decide.
    #[cycle(eval)]
    fn joined(
        &self,
        op: Op,
        left: Value<Callee<'p, E::Function>>,
        right: &'p Expr,
    ) -> Answer<Callee<'p, E::Function>>
        ensures { seen_answer (callee_in E.seen (E.rules self.now.environment.now) (E.state self.now.environment.now) self.now.frame.now) result ≡
            joined (E.rules self.now.environment.now).access.same op
            (Ok (seen_value (callee_in E.seen (E.rules self.now.environment.now) (E.state self.now.environment.now) self.now.frame.now) left.entry))
            (ev (E.rules self.now.environment.now).access.same (look_in E.seen (E.rules self.now.environment.now) (E.state self.now.environment.now) self.now.frame.now) (expression_of right.now)) }
    {
        match settled(op, left.number()) {
            Some(number) => Ok(Value::Num(number)),
            None => match self.eval(right) {
                Ok(right) => self.applied(op, left, right),
                Err(trap) => Err(trap),
            },
        }
    }

    // The value of an expression, or the trap that its evaluation ends in.
    #[cycle(eval)]
    fn eval(&self, expr: &'p Expr) -> Answer<Callee<'p, E::Function>>
        ensures { seen_answer (callee_in E.seen (E.rules self.now.environment.now) (E.state self.now.environment.now) self.now.frame.now) result ≡
            ev (E.rules self.now.environment.now).access.same (look_in E.seen (E.rules self.now.environment.now) (E.state self.now.environment.now) self.now.frame.now) (expression_of expr.now) }
    {
        match expr {
            Expr::Lit(number) => Ok(Value::Num(*number)),
            Expr::Var(name) => Ok(known::<E>(self.value(name))),
            Expr::Elem(array, index) => match self.eval(index.get()) {
                Ok(index) => self.element(array, index.number()),
                Err(trap) => Err(trap),
            },
            Expr::FunRef(name) => Ok(Value::Code(Callee::Named(name))),
            Expr::Null => Ok(Value::Null),
            Expr::Neg(operand) => match self.eval(operand.get()) {
                Ok(operand) => answer::<E>(negated(operand.number())),
                Err(trap) => Err(trap),
            },
            Expr::Not(operand) => match self.eval(operand.get()) {
                Ok(operand) => Ok(Value::Num(truth(operand.is_zero()))),
                Err(trap) => Err(trap),
            },
            Expr::Bin(op, left, right) => match self.eval(left.get()) {
                Ok(left) => self.joined(*op, left, right.get()),
                Err(trap) => Err(trap),
            },
        }
    }
}

impl<'p, E: Environment<'p>> Run<'p, E> {
    ghost use Rattle.plain_run.specs.Code.Scopes.{callee_in, look_in};

    fn scope(&self) -> Scope<'_, 'p, E>
        ensures environment { result.environment.now ≡ self.now.environment }
        ensures frame { result.frame.now ≡ self.now.stack.top }
    {
        Scope {
            environment: &self.environment,
            frame: &self.stack.top,
        }
    }

    // A value whose function is found by its name.
    fn resolved(&self, value: Value<Callee<'p, E::Function>>) -> Value<E::Function>
        ensures { seen_value E.seen.function result ≡ seen_value (callee_in E.seen (E.rules self.now.environment) (E.state self.now.environment) self.now.stack.top) value.entry }
    {
        match value {
            Value::Num(number) => Value::Num(number),
            Value::Code(Callee::Known(function)) => Value::Code(function),
            Value::Code(Callee::Named(name)) => {
                Value::Code(self.environment.code(self.stack.top.origin, name))
            }
            Value::Null => Value::Null,
        }
    }

    // A name's value while the frame on top runs.
    pub(crate) fn value(&self, name: &'p Name) -> Value<E::Function>
        ensures { seen_value E.seen.function result ≡ (look_in E.seen (E.rules self.now.environment) (E.state self.now.environment) self.now.stack.top).value name.entry.now }
    {
        self.scope().value(name)
    }

    // The value of an expression, or the trap that its evaluation ends in.
    pub(crate) fn eval(&self, expr: &'p Expr) -> Answer<E::Function>
        ensures { seen_answer E.seen.function result ≡
            ev (E.rules self.now.environment).access.same (look_in E.seen (E.rules self.now.environment) (E.state self.now.environment) self.now.stack.top) (expression_of expr.entry.now) }
    {
        match self.scope().eval(expr) {
            Ok(value) => Ok(self.resolved(value)),
            Err(trap) => Err(trap),
        }
    }

    // The values of arguments from left to right, or the first trap. The only error is want of
    // memory.
    pub(crate) fn arguments(
        &self,
        alloc: Global,
        exprs: &'p [Expr],
    ) -> Result<Result<Vec<Value<E::Function>>, Trap>, AllocError>
        ensures { IfOk result (λ values. seen_arguments E.seen.function values ≡
            values_in (E.rules self.now.environment).access.same (look_in E.seen (E.rules self.now.environment) (E.state self.now.environment) self.now.stack.top) exprs.entry.now) }
    {
        let mut values = Vec::with_capacity(alloc, exprs.len())?;
        for expr in exprs {
            match self.eval(expr) {
                Ok(value) => values.push(value)?,
                Err(trap) => return Ok(Err(trap)),
            }
        }
        Ok(Ok(values))
    }
}
