//! What the calls on formulas answer.

use crate::case_error::CaseError;
use crate::halves;
use crate::notation::{put_fact, put_name, put_nodes};
use crate::reading::{array, fact, form, symbol, term};
use sqlite_items::{Boxed, Items};
use std::alloc::{AllocError, Global};
use terms::{
    ArrayTerm, Fact, Form, Sym, Term, Valuation, free, holds_at, subst, subst_fact, subst_fact_row,
    subst_row,
};

fn numbers(alloc: Global) -> Result<Items<(Sym, i128)>, CaseError> {
    let mut numbers = Items::new(alloc);
    for (name, number) in [("x", 7), ("y", -2), ("x", 8), ("x1", 9)] {
        numbers.push((symbol(alloc, name)?, number))?;
    }
    Ok(numbers)
}

fn arrays(alloc: Global) -> Result<Items<(Sym, Items<(i128, i128)>)>, CaseError> {
    let mut arrays = Items::new(alloc);
    let pairs = Items::from_slice(alloc, &[(0, 5), (-1, 6), (0, 4)])?;
    arrays.push((symbol(alloc, "A")?, pairs))?;
    Ok(arrays)
}

/// What the names of the cases stand for: x is 7, y is -2 and x1 is 9; A holds 5 at 0 and 6 at -1.
/// The second pairs of x and of A at 0 don't count.
fn valuation(alloc: Global) -> Result<Boxed<Valuation>, CaseError> {
    let wholes = numbers(alloc)?;
    let rows = arrays(alloc)?;
    Ok(Boxed::new(alloc, Valuation { wholes, rows })?)
}

/// Whether a form is true at the valuation.
pub fn holds(alloc: Global, text: &str) -> Result<String, CaseError> {
    let at = valuation(alloc)?;
    let form = form(alloc, text)?;
    let said = match holds_at(&form, at.get()) {
        Some(true) => "true",
        Some(false) => "false",
        None => "none",
    };
    Ok(String::from_str(alloc, said)?)
}

/// The number that a name stands for.
pub fn listed_number(alloc: Global, name: &str) -> Result<String, CaseError> {
    let at = valuation(alloc)?;
    match at.get().number(&symbol(alloc, name)?) {
        Some(number) => Ok(format!(in alloc; "{number}")?),
        None => Ok(String::from_str(alloc, "none")?),
    }
}

/// How many pairs the array has that a name stands for.
pub fn listed_array(alloc: Global, name: &str) -> Result<String, CaseError> {
    let at = valuation(alloc)?;
    match at.get().row(&symbol(alloc, name)?) {
        Some(pairs) => Ok(format!(in alloc; "{}", pairs.len())?),
        None => Ok(String::from_str(alloc, "none")?),
    }
}

fn names_text(alloc: Global, names: &[Sym]) -> Result<String, AllocError> {
    let mut said = String::new(alloc);
    for name in names {
        put_name(name, &mut said)?;
    }
    Ok(said)
}

fn form_text(alloc: Global, form: &Form) -> Result<String, AllocError> {
    let mut said = String::new(alloc);
    put_nodes(form.nodes(), &mut said)?;
    Ok(said)
}

fn fact_text(alloc: Global, fact: &Fact) -> Result<String, AllocError> {
    let mut said = String::new(alloc);
    put_fact(fact, &mut said)?;
    Ok(said)
}

pub fn free_names(alloc: Global, text: &str) -> Result<String, CaseError> {
    let form = form(alloc, text)?;
    let names = free(alloc, &form)?;
    Ok(names_text(alloc, &names)?)
}

fn term_copied(alloc: Global, text: &str) -> Result<String, CaseError> {
    let copy = term(alloc, text)?.copy(alloc)?;
    let mut said = String::new(alloc);
    put_nodes(copy.nodes(), &mut said)?;
    Ok(said)
}

fn array_copied(alloc: Global, text: &str) -> Result<String, CaseError> {
    let copy = array(alloc, text)?.copy(alloc)?;
    let mut said = String::new(alloc);
    put_nodes(copy.nodes(), &mut said)?;
    Ok(said)
}

fn form_copied(alloc: Global, text: &str) -> Result<String, CaseError> {
    let copy = form(alloc, text)?.copy(alloc)?;
    Ok(form_text(alloc, &copy)?)
}

fn fact_copied(alloc: Global, text: &str) -> Result<String, CaseError> {
    let copy = fact(alloc, text)?.copy(alloc)?;
    Ok(fact_text(alloc, &copy)?)
}

/// A copy of a term, an array, a form or a fact.
pub fn copied(alloc: Global, parts: &str) -> Result<String, CaseError> {
    let (sort, text) = halves(parts);
    match sort {
        "term" => term_copied(alloc, text),
        "array" => array_copied(alloc, text),
        "form" => form_copied(alloc, text),
        "fact" => fact_copied(alloc, text),
        _ => Err(CaseError::Malformed),
    }
}

fn form_with_number(
    alloc: Global,
    form: &Form,
    name: &Sym,
    by: &Term,
) -> Result<String, AllocError> {
    let made = subst(alloc, form, name, by)?;
    form_text(alloc, &made)
}

fn form_with_array(
    alloc: Global,
    form: &Form,
    name: &Sym,
    by: &ArrayTerm,
) -> Result<String, AllocError> {
    let made = subst_row(alloc, form, name, by)?;
    form_text(alloc, &made)
}

/// `NAME : TERM : FORM`, the form with the term for the name.
pub fn number_replaced(alloc: Global, parts: &str) -> Result<String, CaseError> {
    let (name, rest) = halves(parts);
    let (by, text) = halves(rest);
    let name = symbol(alloc, name)?;
    let by = term(alloc, by)?;
    let form = form(alloc, text)?;
    Ok(form_with_number(alloc, &form, &name, &by)?)
}

/// `NAME : ARRAY : FORM`, the form with the array for the name.
pub fn array_replaced(alloc: Global, parts: &str) -> Result<String, CaseError> {
    let (name, rest) = halves(parts);
    let (by, text) = halves(rest);
    let name = symbol(alloc, name)?;
    let by = array(alloc, by)?;
    let form = form(alloc, text)?;
    Ok(form_with_array(alloc, &form, &name, &by)?)
}

fn fact_with_number(
    alloc: Global,
    fact: &Fact,
    name: &Sym,
    by: &Term,
) -> Result<String, AllocError> {
    if fact.captures(by) {
        return String::from_str(alloc, "captured");
    }
    let made = subst_fact(alloc, fact, name, by)?;
    fact_text(alloc, &made)
}

fn fact_with_array(
    alloc: Global,
    fact: &Fact,
    name: &Sym,
    by: &ArrayTerm,
) -> Result<String, AllocError> {
    if fact.captures_row(by) {
        return String::from_str(alloc, "captured");
    }
    let made = subst_fact_row(alloc, fact, name, by)?;
    fact_text(alloc, &made)
}

/// `NAME : TERM : FACT`, the fact with the term for the name.
pub fn number_replaced_in_fact(alloc: Global, parts: &str) -> Result<String, CaseError> {
    let (name, rest) = halves(parts);
    let (by, text) = halves(rest);
    let name = symbol(alloc, name)?;
    let by = term(alloc, by)?;
    let fact = fact(alloc, text)?;
    Ok(fact_with_number(alloc, &fact, &name, &by)?)
}

/// `NAME : ARRAY : FACT`, the fact with the array for the name.
pub fn array_replaced_in_fact(alloc: Global, parts: &str) -> Result<String, CaseError> {
    let (name, rest) = halves(parts);
    let (by, text) = halves(rest);
    let name = symbol(alloc, name)?;
    let by = array(alloc, by)?;
    let fact = fact(alloc, text)?;
    Ok(fact_with_array(alloc, &fact, &name, &by)?)
}
