//! The parameters of a head.

ghost use Rattle.std.specs.Prelude.{[], ◌≡◌, ◌≤◌, ◌<◌, ◌+◌, length, IfOk, OnOk, option_map};
ghost use Rattle.c_expressions.specs.Code.ParseSteps.{Gives, separated};
ghost use Rattle.c_parser.specs.Code.UnitReading as spec;
ghost use Rattle.c_grammar.specs.Units as units;

use crate::parts::arity_refusals;
use c_expressions::front::{after, after_key, name_at, skip, skip_key};
use c_expressions::parse_error::ParseError;
use c_expressions::pointer::pointer_at;
use c_lang::{Kind, Name, Pos, Refusal};
use c_lexer::{Token, keyword, punctuator};
use sqlite_items::Items;
use std::alloc::{AllocError, Global};

/// A parameter, which in a prototype may have no name.
#[derive(Drop)]
pub struct Param {
    pub kind: Kind,
    pub name: Option<Name>,
}

/// Parameters, and what is refused of them.
#[derive(Drop)]
pub struct Params {
    pub list: Items<Param>,
    pub early: Items<Refusal>,
}

impl Params {
    /// No parameters. It takes no memory.
    fn new(alloc: Global) -> Params
        ensures { result ≡ spec.no_params }
    {
        Params {
            list: Items::new(alloc),
            early: Items::new(alloc),
        }
    }

    /// Adds a parameter. The only error is want of memory.
    fn add(&mut self, param: Param, early: Items<Refusal>) -> Result<(), AllocError>
        ensures { OnOk result (self.new ≡ spec.with_param self.old param early) }
    {
        self.list.push(param)?;
        self.early.append(early)
    }

    fn add_int(&mut self, alloc: Global, name: Option<Name>) -> Result<(), AllocError>
        ensures { OnOk result (self.new ≡ spec.with_param self.old (spec.int_param name) []) }
    {
        let param = Param {
            kind: Kind::Int,
            name,
        };
        self.add(param, Items::new(alloc))
    }
}

// One parameter, which is added to those before it.
#[tactic(auto, unfolding(crate::specs::Code::UnitReading::param))]
fn parameter<'a>(
    alloc: Global,
    pos: Pos,
    params: &mut Params,
    tokens: &'a [Token],
) -> Result<&'a [Token], ParseError>
    ensures read { Gives (λ rest. (params.new, rest.now)) result (spec.param pos params.old tokens.now) }
    ensures rest { IfOk result (λ rest. length rest.now < length tokens.now) }
{
    let rest = after_key(keyword::INT, tokens)?;
    if let Some((name, rest)) = name_at(rest) {
        params.add_int(alloc, Some(name.copy(alloc)?))?;
        return Ok(rest);
    }
    match skip(punctuator::ROUND_OPEN, rest) {
        None => {
            params.add_int(alloc, None)?;
            Ok(rest)
        }
        Some(_) => pointer_param(alloc, pos, params, rest),
    }
}

fn pointer_param<'a>(
    alloc: Global,
    pos: Pos,
    params: &mut Params,
    tokens: &'a [Token],
) -> Result<&'a [Token], ParseError>
    ensures read { Gives (λ rest. (params.new, rest.now)) result (spec.pointer_param pos params.old tokens.now) }
    ensures rest { IfOk result (λ rest. length rest.now < length tokens.now) }
{
    let pointer = pointer_at(tokens)?;
    let early = arity_refusals(alloc, pos, pointer.arity)?;
    let param = Param {
        kind: Kind::Fp(pointer.arity),
        name: Some(pointer.name.copy(alloc)?),
    };
    params.add(param, early)?;
    Ok(pointer.rest)
}

fn several(alloc: Global, pos: Pos, tokens: &[Token]) -> Result<(Params, &[Token]), ParseError>
    ensures read { Gives (λ x. (x.0, x.1.now)) result (separated (spec.param pos) (length tokens.now + 1) spec.no_params tokens.now) }
    ensures rest { IfOk result (λ x. length x.1.now < length tokens.now) }
{
    let mut params = Params::new(alloc);
    let mut rest = tokens;
    loop {
        let next = parameter(alloc, pos, &mut params, rest)?;
        match skip(punctuator::COMMA, next) {
            None => return Ok((params, next)),
            Some(others) => rest = others,
        }
    }
}

/// The parameters of a head at this position, behind its opening bracket and up to the closing one.
#[tactic(auto, unfolding(crate::specs::Code::UnitReading::params_at))]
pub fn params_at(
    alloc: Global,
    pos: Pos,
    tokens: &[Token],
) -> Result<(Params, &[Token]), ParseError>
    ensures read { Gives (λ x. (x.0, x.1.now)) result (spec.params_at pos tokens.now) }
    ensures rest { IfOk result (λ x. length x.1.now < length tokens.now) }
{
    if let Some(rest) = skip(punctuator::ROUND_CLOSE, tokens) {
        return Ok((Params::new(alloc), rest));
    }
    match skip_key(keyword::VOID, tokens) {
        Some(inside) => {
            let rest = after(punctuator::ROUND_CLOSE, inside)?;
            Ok((Params::new(alloc), rest))
        }
        None => {
            let (params, closing) = several(alloc, pos, tokens)?;
            Ok((params, after(punctuator::ROUND_CLOSE, closing)?))
        }
    }
}
