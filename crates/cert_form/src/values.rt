ghost use Rattle.std.specs.Prelude.{◌≡◌, IfOk, [], ◌∷◌};
ghost use Rattle.serde_json.specs.Data.{array, string};
ghost use Rattle.serde_json.specs.View.{view, items_of};
ghost use Rattle.cert_form.specs.Certificates.{sum, form as form_part, term as term_part, name as name_part};
ghost use Rattle.cert_form.specs.Written.{whole_data, multiplier_data, pair_data, part_data, text_data};

use formula_texts::{put_form, put_name, put_term};
use serde_json::Value;
use std::alloc::{AllocError, Global};
use terms::{Form, Sym, Term};

/// An array of two.
pub(crate) fn two_values(alloc: Global, first: Value, second: Value) -> Result<Value, AllocError>
    ensures { IfOk result (λ value. view value ≡ array (items_of (view first ∷ view second ∷ []))) }
{
    let mut parts = Vec::with_capacity(alloc, 2)?;
    parts.push(first)?;
    parts.push(second)?;
    Ok(Value::Array(parts))
}

/// An array of three.
pub(crate) fn three_values(
    alloc: Global,
    first: Value,
    second: Value,
    third: Value,
) -> Result<Value, AllocError>
    ensures { IfOk result (λ value. view value ≡ array (items_of (view first ∷ view second ∷ view third ∷ []))) }
{
    let mut parts = Vec::with_capacity(alloc, 3)?;
    parts.push(first)?;
    parts.push(second)?;
    parts.push(third)?;
    Ok(Value::Array(parts))
}

pub(crate) fn word_value(alloc: Global, word: &str) -> Result<Value, AllocError>
    ensures { IfOk result (λ value. view value ≡ string word.now) }
{
    let text = String::from_str(alloc, word)?;
    Ok(Value::String(text))
}

pub(crate) fn whole_value(number: u32) -> Value
    ensures { view result ≡ whole_data number }
{
    Value::from(number)
}

pub(crate) fn multiplier_value(alloc: Global, number: i128) -> Result<Value, AllocError>
    ensures { IfOk result (λ value. view value ≡ multiplier_data number) }
{
    let text = number.to_string(alloc)?;
    Ok(Value::String(text))
}

fn pair_value(alloc: Global, fact: u32, multiplier: i128) -> Result<Value, AllocError>
    ensures { IfOk result (λ value. view value ≡ pair_data (fact, multiplier)) }
{
    let multiplier = multiplier_value(alloc, multiplier)?;
    two_values(alloc, whole_value(fact), multiplier)
}

pub(crate) fn sum_value(alloc: Global, pairs: &[(u32, i128)]) -> Result<Value, AllocError>
    ensures { IfOk result (λ value. view value ≡ part_data (sum pairs.now)) }
{
    let mut values = Vec::with_capacity(alloc, pairs.len())?;
    for pair in pairs {
        values.push(pair_value(alloc, pair.0, pair.1)?)?;
    }
    Ok(Value::Array(values))
}

fn text_value(alloc: Global, text: &[u8]) -> Result<Value, AllocError>
    ensures { IfOk result (λ value. view value ≡ text_data text.now) }
{
    let text = String::from_utf8_lossy(alloc, text)?;
    Ok(Value::String(text))
}

pub(crate) fn form_value(alloc: Global, form: &Form) -> Result<Value, AllocError>
    ensures { IfOk result (λ value. view value ≡ part_data (form_part form.now)) }
{
    let mut text = Vec::new(alloc);
    put_form(alloc, &mut text, form)?;
    text_value(alloc, text.as_slice())
}

pub(crate) fn term_value(alloc: Global, term: &Term) -> Result<Value, AllocError>
    ensures { IfOk result (λ value. view value ≡ part_data (term_part term.now)) }
{
    let mut text = Vec::new(alloc);
    put_term(alloc, &mut text, term)?;
    text_value(alloc, text.as_slice())
}

pub(crate) fn name_value(alloc: Global, name: &Sym) -> Result<Value, AllocError>
    ensures { IfOk result (λ value. view value ≡ part_data (name_part name.now)) }
{
    let mut text = Vec::new(alloc);
    put_name(&mut text, name)?;
    text_value(alloc, text.as_slice())
}
