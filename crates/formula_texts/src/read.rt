//! Reading whole texts.

ghost use Rattle.std.specs.Prelude.{◌≡◌, ◌≤◌, IfOk, MatchOption};
ghost use Rattle.terms.specs.Trees.{FormTree, TermTree};
ghost use Rattle.terms.specs.declared.sym.Sym.{Sym as SymTree};
ghost use Rattle.formula_texts.specs.Texts.{AreOf, IsFormText, IsNameText, IsTermText};
ghost use Rattle.formula_texts.specs.declared.value.Value.{Value as ValueTree};
ghost use Rattle.formula_texts.specs.Code.Reading as spec;
ghost use Rattle.formula_texts.specs.Code.Reading.{Gives};
ghost use Rattle.formula_texts.specs.Code.Whole as whole;

use crate::apply::{form_in, term_in};
use crate::front::name_after;
use crate::lexer::tokens_of;
use crate::reader::expression;
use crate::size::Size;
use crate::stop::Stop;
use crate::token::Token;
use crate::value::Value;
use std::alloc::{AllocError, Global};
use terms::{Form, Sym, Term};

/// How far what is read may be nested: how many brackets may be open at once, and how many operators
/// may stand along a path.
#[derive(Clone, Copy, Debug)]
pub struct Limits {
    pub brackets: u16,
    pub operators: u16,
}

/// The limits of texts.
const TEXT_LIMITS: Limits = Limits {
    brackets: 1000,
    operators: 1001,
};

fn is_small(limits: Limits, size: Size) -> bool
    ensures { result ≡ spec.is_small limits.brackets limits.operators size }
{
    size.brackets <= limits.brackets as u32 && size.operators <= limits.operators as u32
}

/// The form or term that all the tokens are.
#[tactic(auto, unfolding(crate::specs::Code::Reading::value_in))]
fn value_in(alloc: Global, limits: Limits, tokens: &[Token]) -> Result<Value, Stop>
    ensures { Gives (λ value. value) result (spec.value_in limits.brackets limits.operators tokens.now) }
{
    let height = limits.brackets as u32 + limits.operators as u32 + 1;
    let found = expression(alloc, height, 1, tokens)?;
    if !found.rest.is_empty() || !is_small(limits, found.size) {
        return Err(Stop::NoText);
    }
    Ok(found.value)
}

/// The form or term that all the tokens are, within the limits; `None` where they are none. The only
/// error is want of memory.
#[tactic(auto, using(crate::proofs::TokenLaws::value_is))]
pub fn read_tokens(
    alloc: Global,
    limits: Limits,
    tokens: &[Token],
) -> Result<Option<Value>, AllocError>
    ensures { IfOk result (λ read. MatchOption read
        ((value : ValueTree) → AreOf limits.brackets limits.operators tokens.now value → ⊥)
        (λ value. AreOf limits.brackets limits.operators tokens.now value)) }
{
    match value_in(alloc, limits, tokens) {
        Ok(value) => Ok(Some(value)),
        Err(Stop::NoText) => Ok(None),
        Err(Stop::NoMemory) => Err(AllocError),
    }
}

/// The name that all the tokens are.
#[tactic(auto, unfolding(crate::specs::Code::Reading::name_in))]
fn name_in(alloc: Global, tokens: &[Token]) -> Result<Sym, Stop>
    ensures { Gives (λ name. name) result (spec.name_in tokens.now) }
{
    let [first, rest @ ..] = tokens else {
        return Err(Stop::NoText);
    };
    let Token::Base(base) = first else {
        return Err(Stop::NoText);
    };
    let (name, rest) = name_after(alloc, base, rest)?;
    if !rest.is_empty() {
        return Err(Stop::NoText);
    }
    Ok(name)
}

fn form_of(alloc: Global, text: &[u8]) -> Result<Form, Stop>
    ensures { Gives (λ form. form) result (whole.form_of text.now) }
{
    let tokens = tokens_of(alloc, text)?;
    form_in(value_in(alloc, TEXT_LIMITS, tokens.as_slice())?)
}

fn term_of(alloc: Global, text: &[u8]) -> Result<Term, Stop>
    ensures { Gives (λ term. term) result (whole.term_of text.now) }
{
    let tokens = tokens_of(alloc, text)?;
    term_in(value_in(alloc, TEXT_LIMITS, tokens.as_slice())?)
}

fn name_of(alloc: Global, text: &[u8]) -> Result<Sym, Stop>
    ensures { Gives (λ name. name) result (whole.name_of text.now) }
{
    let tokens = tokens_of(alloc, text)?;
    name_in(alloc, tokens.as_slice())
}

/// The form that the text is; `None` where it is the text of no form. The only error is want of
/// memory.
#[tactic(auto, using(crate::proofs::WholeLaws::form_read))]
pub fn read_form(alloc: Global, text: &[u8]) -> Result<Option<Form>, AllocError>
    ensures { IfOk result (λ read. MatchOption read ((form : FormTree) → IsFormText text.now form → ⊥) (λ form. IsFormText text.now form)) }
{
    match form_of(alloc, text) {
        Ok(form) => Ok(Some(form)),
        Err(Stop::NoText) => Ok(None),
        Err(Stop::NoMemory) => Err(AllocError),
    }
}

/// The term that the text is; `None` where it is the text of no term. The only error is want of
/// memory.
#[tactic(auto, using(crate::proofs::WholeLaws::term_read))]
pub fn read_term(alloc: Global, text: &[u8]) -> Result<Option<Term>, AllocError>
    ensures { IfOk result (λ read. MatchOption read ((term : TermTree) → IsTermText text.now term → ⊥) (λ term. IsTermText text.now term)) }
{
    match term_of(alloc, text) {
        Ok(term) => Ok(Some(term)),
        Err(Stop::NoText) => Ok(None),
        Err(Stop::NoMemory) => Err(AllocError),
    }
}

/// The name that the text is; `None` where it is the text of no name. The only error is want of
/// memory.
#[tactic(auto, using(crate::proofs::WholeLaws::name_read))]
pub fn read_name(alloc: Global, text: &[u8]) -> Result<Option<Sym>, AllocError>
    ensures { IfOk result (λ read. MatchOption read ((name : SymTree) → IsNameText text.now name → ⊥) (λ name. IsNameText text.now name)) }
{
    match name_of(alloc, text) {
        Ok(name) => Ok(Some(name)),
        Err(Stop::NoText) => Ok(None),
        Err(Stop::NoMemory) => Err(AllocError),
    }
}
