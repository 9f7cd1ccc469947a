//! Range of a name.
ghost use Rattle.std.specs.Prelude.{◌≡◌, IfOk, Some, option_map, filter_map, slice_get, find, is_some};
ghost use Rattle.std.specs.Option.{option_copied};
ghost use Rattle.terms.specs.Trees.{number, name, at_most};
ghost use Rattle.cert_checker.specs.Rules.{bounds_of, bounds_in, within_bounds, range_of_name};
ghost use Rattle.cert_checker.specs.Code.Made.{seen, as_facts};

use crate::made::{one_child, pair};
use std::alloc::{AllocError, Global};
use terms::{Fact, Form, Sort, Sym, Term};

const INT_MIN: i128 = -2147483648;

const INT_MAX: i128 = 2147483647;

fn sort_bounds(sort: Sort) -> Option<(i128, i128)>
    ensures { result ≡ bounds_of sort }
{
    match sort {
        Sort::Whole => Some((INT_MIN, INT_MAX)),
        Sort::Code(count) => Some((0, count as i128)),
        Sort::Row(_) => None,
    }
}

fn entry_bounds(entry: &(Sym, Sort), of: &Sym) -> Option<(i128, i128)>
    ensures { result ≡ bounds_in of.now entry.now }
{
    if *of == entry.0 {
        return sort_bounds(entry.1);
    }
    None
}

fn gives_bounds(entry: &(Sym, Sort), of: &Sym) -> bool
    ensures { result ≡ is_some (bounds_in of.now entry.now) }
{
    entry_bounds(entry, of).is_some()
}

fn first_with_bounds<'a>(sorts: &'a [(Sym, Sort)], of: &Sym) -> Option<&'a (Sym, Sort)>
    ensures { option_copied result ≡ find (λ entry. is_some (bounds_in of.now entry)) sorts.now }
{
    sorts.iter().find(|entry| gives_bounds(entry, of))
}

/// The bounds by the first entry that gives some.
fn bounds(sorts: &[(Sym, Sort)], of: &Sym) -> Option<(i128, i128)>
    ensures { result ≡ slice_get (filter_map (bounds_in of.now) sorts.now) 0 }
{
    match first_with_bounds(sorts, of) {
        Some(entry) => entry_bounds(entry, of),
        None => None,
    }
}

fn at_least(alloc: Global, of: &Sym, low: i128) -> Result<Form, AllocError>
    ensures { IfOk result (λ made. made ≡ at_most (number low) (name of.now)) }
{
    let term = Term::name(alloc, of.copy(alloc)?)?;
    Form::at_most(Term::number(alloc, low)?, term)
}

fn not_above(alloc: Global, of: &Sym, high: i128) -> Result<Form, AllocError>
    ensures { IfOk result (λ made. made ≡ at_most (name of.now) (number high)) }
{
    let term = Term::name(alloc, of.copy(alloc)?)?;
    Form::at_most(term, Term::number(alloc, high)?)
}

/// What Range of a name adds.
pub(crate) fn range(
    alloc: Global,
    sorts: &[(Sym, Sort)],
    of: &Sym,
) -> Result<Option<Vec<Vec<Fact>>>, AllocError>
    ensures { IfOk result (λ made. option_map seen made ≡ as_facts (range_of_name sorts.now of.now)) }
{
    let Some((low, high)) = bounds(sorts, of) else {
        return Ok(None);
    };
    let first = at_least(alloc, of, low)?;
    let facts = pair(alloc, first, not_above(alloc, of, high)?)?;
    Ok(Some(one_child(alloc, facts)?))
}
