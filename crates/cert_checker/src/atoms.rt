ghost use Rattle.std.specs.Prelude.{◌≡◌, [], IfOk, OnOk, OnErr};
ghost use Rattle.std.specs.List.{position};
ghost use Rattle.terms.specs.Equality.{same_term};
ghost use Rattle.cert_checker.specs.Numbering.{atom_number, with_atom, IsRowOf};

use crate::row::form_row;
use linear_rows::{Row, RowFail};
use std::alloc::{AllocError, Global};
use std::marker::Model;
use terms::{Form, Term, TermRef};

fn place(atoms: &[Term], term: &TermRef<'_>) -> Option<usize>
    ensures { result ≡ position (λ u. same_term u term.now) atoms.now }
{
    atoms.iter().position(|atom| atom.nodes() == term.nodes())
}

/// The term's number. A term that has none gets the next one.
pub(crate) fn number(
    alloc: Global,
    atoms: &mut Vec<Term>,
    term: &TermRef<'_>,
) -> Result<u32, AllocError>
    ensures number { IfOk result (λ n. n ≡ atom_number atoms.new.items term.now) }
    ensures grown { OnOk result (atoms.new.items ≡ with_atom atoms.old.items term.now) }
    ensures kept { OnErr result (atoms.new.items ≡ atoms.old.items) }
{
    if let Some(at) = place(atoms.as_slice(), term) {
        let Ok(known) = u32::try_from(at) else {
            return Err(AllocError);
        };
        return Ok(known);
    }
    let Ok(next) = u32::try_from(atoms.len()) else {
        return Err(AllocError);
    };
    atoms.push(term.copy(alloc)?)?;
    Ok(next)
}

/// Terms that have numbers: the place of each, from 0. None stands there twice. A term is looked for
/// from the first place on.
#[derive(Debug, Drop)]
pub struct Atoms {
    terms: Vec<Term>,
}

impl Model for Atoms {
    ghost use Rattle.std.specs.Prelude.{List};
    ghost use Rattle.std.specs.List.{IsDistinct};
    ghost use Rattle.terms.specs.Equality.{same_term};
    ghost use Rattle.terms.specs.Trees.{TermTree};

    ghost Value = { List TermTree };

    ghost use Rattle.std.specs.Coded.{codes};
    ghost use Rattle.terms.specs.contracts.form.Term as term;

    ghost coded = { Prim.hlevel (codes, term.the_row.coded) };

    ghost view = { λ a. a.terms.items };

    ghost invariant = { λ a. IsDistinct same_term a.terms.items };
}

impl Atoms {
    /// No terms.
    pub fn new(alloc: Global) -> Result<Atoms, AllocError>
        ensures { IfOk result (λ atoms. atoms ≡ []) }
    {
        Ok(Atoms {
            terms: Vec::new(alloc),
        })
    }

    /// The terms, each at the place that is its number.
    pub fn terms(&self) -> &[Term]
        ensures { result.now ≡ self.now }
    {
        self.terms.as_slice()
    }
}

/// The row of a form that says at most, not at most, or equal, over the numbers of its atoms. Its new
/// atoms get the next numbers, in the order of their first places in the form. `None` comes for other
/// forms. `Wide` comes where such a form has no row, since a number of it, or of the sum of a linear
/// term in it, is past 2^100 in size. It is want of memory, too, where an atom would have a number of 2^32
/// or more. After `None` and after errors the atoms are as before.
pub fn row_of(alloc: Global, form: &Form, atoms: &mut Atoms) -> Result<Option<Row>, RowFail>
    ensures { IsRowOf form.now atoms.old result atoms.new }
{
    form_row(alloc, form.as_ref(), &mut atoms.terms)
}
