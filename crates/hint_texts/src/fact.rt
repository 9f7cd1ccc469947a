//! Reads facts.

ghost use Rattle.std.specs.Prelude.{◌≡◌, IfOk, drop};
ghost use Rattle.std.specs.Option.{option_copied};
ghost use Rattle.name_tables.specs.Declarations.{function_number};
ghost use Rattle.formula_texts.specs.Code.Reading.{Gives};
ghost use Rattle.hint_texts.specs.Grammar as grammar;
ghost use Rattle.hint_texts.specs.Code.Reading as spec;

use crate::formula::{form, sum};
use crate::front::{cut, is_word, name_in, word_at};
use crate::hints::Quantified;
use crate::token::{Closing, Token};
use c_lang::Name;
use formula_texts::stop::Stop;
use name_tables::ProgramNames;
use std::alloc::{AllocError, Global};
use terms::{Fact, Form, Sym, Term, subst};

/// The number that a fact binds.
fn bound(alloc: Global) -> Result<Sym, AllocError>
    ensures { IfOk result (λ name. name ≡ grammar.bound) }
{
    Ok(Sym {
        base: Name::new(alloc, b"$")?,
        count: 0,
    })
}

/// The form with the bound number wherever the name stands as a number.
fn with_bound(alloc: Global, name: &Name, form: &Form) -> Result<Form, AllocError>
    ensures { IfOk result (λ made. made ≡ grammar.with_bound name.now form.now) }
{
    let replaced = Sym {
        base: name.copy(alloc)?,
        count: 0,
    };
    let by = Term::name(alloc, bound(alloc)?)?;
    subst(alloc, form, &replaced, &by)
}

/// For every number from `lo` up to `hi`, which has this name in the body.
fn every(
    alloc: Global,
    name: &Name,
    lo: Term,
    hi: Term,
    body: &Form,
) -> Result<Quantified, AllocError>
    ensures { IfOk result (λ made. made ≡ grammar.every name.now lo hi body.now) }
{
    let body = with_bound(alloc, name, body)?;
    let var = bound(alloc)?;
    Ok(Quantified {
        name: Some(name.copy(alloc)?),
        fact: Fact::All { var, lo, hi, body },
    })
}

fn first_name(tokens: &[Token]) -> Option<&Name>
    ensures { option_copied result ≡ spec.first_name tokens.now }
{
    match tokens {
        [first, ..] => name_in(&first.kind),
        [] => None,
    }
}

/// The name behind `forall`, where the tokens begin so.
fn quantified_name(tokens: &[Token]) -> Option<&Name>
    ensures { option_copied result ≡ spec.quantified_name tokens.now }
{
    match tokens {
        [first, rest @ ..] if is_word(b"forall", &first.kind) => first_name(rest),
        _ => None,
    }
}

/// A quantified fact, behind the name of its `forall`.
#[tactic(auto, unfolding(crate::specs::Code::Reading::every_of))]
fn every_of(
    alloc: Global,
    names: &ProgramNames<'_>,
    name: &Name,
    tokens: &[Token],
) -> Result<Quantified, Stop>
    ensures { Gives (λ fact. fact) result (spec.every_of (function_number names.now) name.now tokens.now) }
{
    let (first, behind) = cut(Closing::Range, word_at(b"in", tokens)?)?;
    let lo = sum(alloc, names, first)?;
    let (last, body) = cut(Closing::Colon, behind)?;
    let hi = sum(alloc, names, last)?;
    let body = form(alloc, names, body)?;
    Ok(every(alloc, name, lo, hi, &body)?)
}

fn plain_of(alloc: Global, names: &ProgramNames<'_>, tokens: &[Token]) -> Result<Quantified, Stop>
    ensures { Gives (λ fact. fact) result (spec.plain_of (function_number names.now) tokens.now) }
{
    Ok(Quantified {
        name: None,
        fact: Fact::Plain(form(alloc, names, tokens)?),
    })
}

/// The fact that the tokens are.
pub fn fact(alloc: Global, names: &ProgramNames<'_>, tokens: &[Token]) -> Result<Quantified, Stop>
    ensures { Gives (λ fact. fact) result (spec.fact_of (function_number names.now) tokens.now) }
{
    match quantified_name(tokens) {
        Some(name) => every_of(alloc, names, name, behind_two(tokens)),
        None => plain_of(alloc, names, tokens),
    }
}

/// What stands behind the first two tokens.
fn behind_two(tokens: &[Token]) -> &[Token]
    ensures { result.now ≡ drop 2 tokens.now }
{
    match tokens {
        [_, _, rest @ ..] => rest,
        _ => &[],
    }
}
