//! Round.
ghost use Rattle.std.specs.Prelude.{◌≡◌, ◌<ℤ◌, pos, ℕ, map, length, IfOk, option_map, option_and_then};
ghost use Rattle.std.specs.List.{list_all};
ghost use Rattle.cert_checker.specs.Rows.{combination};
ghost use Rattle.cert_checker.specs.Rules.{joined, round};
ghost use Rattle.cert_checker.specs.Code.Made.{seen, as_facts};
ghost use Rattle.cert_checker.specs.Code.Rounding.{part_term, divides_part, may_round_row, rounded_row, round_row};

use crate::combination::combined;
use crate::divide::is_small;
use crate::made::{one_child, single};
use linear_rows::Row;
use std::alloc::{AllocError, Global};
use terms::{Fact, Form, Term};

fn divides(by: i128, number: i128) -> bool
    requires { pos 0 <ℤ by }
    ensures { result ≡ divides_part by (0, number) }
{
    number.rem_euclid(by) == 0
}

fn divides_all(by: i128, parts: &[(u32, i128)]) -> bool
    requires { pos 0 <ℤ by }
    ensures { result ≡ list_all (divides_part by) parts.now }
{
    parts.iter().all(|part| divides(by, part.1))
}

fn may_round(alloc: Global, by: i128, row: &Row) -> bool
    ensures { result ≡ may_round_row by row.now }
{
    if by <= 0 {
        return false;
    }
    is_small(alloc, by) && divides_all(by, row.parts.as_slice())
}

/// The part divided, as a term. An atom that isn't there counts as 0; rows of combinations have none.
fn part_term(alloc: Global, atoms: &[Term], by: i128, part: (u32, i128)) -> Result<Term, AllocError>
    requires { pos 0 <ℤ by }
    ensures { IfOk result (λ made. made ≡ part_term atoms.now by part) }
{
    let (atom, coefficient) = part;
    let factor = Term::number(alloc, coefficient.div_euclid(by))?;
    match atoms.get(atom as usize) {
        Some(term) => Term::mul(factor, term.copy(alloc)?),
        None => Term::mul(factor, Term::number(alloc, 0)?),
    }
}

/// The parts divided and joined from the left.
fn joined(
    alloc: Global,
    atoms: &[Term],
    by: i128,
    parts: &[(u32, i128)],
) -> Result<Term, AllocError>
    requires { pos 0 <ℤ by }
    ensures { IfOk result (λ made. made ≡ joined (map (part_term atoms.now by) parts.now)) }
{
    let Some((first, rest)) = parts.split_first() else {
        return Term::number(alloc, 0);
    };
    let mut sum = part_term(alloc, atoms, by, *first)?;
    for part in rest {
        sum = Term::add(sum, part_term(alloc, atoms, by, *part)?)?;
    }
    Ok(sum)
}

fn rounded_row(alloc: Global, atoms: &[Term], by: i128, row: &Row) -> Result<Form, AllocError>
    requires { pos 0 <ℤ by }
    ensures { IfOk result (λ made. made ≡ rounded_row atoms.now by row.now) }
{
    let sum = joined(alloc, atoms, by, row.parts.as_slice())?;
    Form::at_most(sum, Term::number(alloc, row.bound.div_euclid(by))?)
}

fn round_row(
    alloc: Global,
    atoms: &[Term],
    by: i128,
    row: &Row,
) -> Result<Option<Vec<Vec<Fact>>>, AllocError>
    ensures { IfOk result (λ made. option_map seen made ≡ as_facts (round_row atoms.now by row.now)) }
{
    if !may_round(alloc, by, row) {
        return Ok(None);
    }
    let form = rounded_row(alloc, atoms, by, row)?;
    let facts = single(alloc, form)?;
    Ok(Some(one_child(alloc, facts)?))
}

/// What Round adds.
pub(crate) fn rounded(
    alloc: Global,
    facts: &[Fact],
    pairs: &[(u32, i128)],
    by: i128,
) -> Result<Option<Vec<Vec<Fact>>>, AllocError>
    ensures { IfOk result (λ made. option_map seen made
        ≡ as_facts (option_and_then (round by) (combination facts.now pairs.now))) }
{
    let mut atoms = Vec::new(alloc);
    match combined(alloc, facts, pairs, &mut atoms)? {
        Some(row) => round_row(alloc, atoms.as_slice(), by, &row),
        None => Ok(None),
    }
}
