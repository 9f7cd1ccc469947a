ghost use Rattle.std.specs.Prelude.{◌≡◌, ◌↔◌, ◌<◌, ◌^◌, ◌++◌, [], ◌∷◌, false, IfOk, OnOk, unwrap_or};
ghost use Rattle.terms.specs.Symbols.{same_sym};
ghost use Rattle.terms.specs.Trees.{name, array};
ghost use Rattle.std.specs.Option.{option_copied, option_map};
ghost use Rattle.terms.specs.Nodes.{node, term_nodes, array_nodes};
ghost use Rattle.terms.specs.Names.{term_names, array_names, captures};
ghost use Rattle.terms.specs.Truth.{Interpretation, with_value, with_array, term_at, array_at, form_at, FactAt};
ghost use Rattle.terms.specs.Replacing.{number_by, array_by, change_in, replaced_term, replaced_array, replaced_form, below, replaced_fact, changed, Avoids};
ghost use Rattle.terms.specs.Code.Rewriting.{change_of, is_bound, change_below, operands_size, put_operator, put_node, put_nodes};

use crate::build::{put_copies, put_leaf, put_operator};
use crate::node::{Node, NodeKind};
use crate::{ArrayTerm, Changes, Fact, Form, Sym, Term};
use std::alloc::{AllocError, Global};

/// A name and what stands in for it, or many at once.
#[derive(Clone, Copy)]
pub(crate) enum Replacement<'a> {
    Number(&'a Sym, &'a Term),
    Array(&'a Sym, &'a ArrayTerm),
    Many(&'a Changes),
}

// What stands in for a name as a number, if something does.
fn number_for<'a>(by: &Replacement<'a>, symbol: &Sym) -> Option<&'a Term>
    ensures { unwrap_or (option_copied result) (name symbol.now) ≡ (change_of by.now).number symbol.now }
{
    match by {
        Replacement::Number(replaced, term) => {
            if *replaced == symbol {
                Some(term)
            } else {
                None
            }
        }
        Replacement::Array(_, _) => None,
        Replacement::Many(changes) => changes.number(symbol),
    }
}

// What stands in for a name as an array, if something does.
fn array_for<'a>(by: &Replacement<'a>, symbol: &Sym) -> Option<&'a ArrayTerm>
    ensures { unwrap_or (option_copied result) (array symbol.now) ≡ (change_of by.now).array symbol.now }
{
    match by {
        Replacement::Number(_, _) => None,
        Replacement::Array(replaced, array) => {
            if *replaced == symbol {
                Some(array)
            } else {
                None
            }
        }
        Replacement::Many(changes) => changes.array(symbol),
    }
}

// Whether the name is the bound one.
pub(crate) fn is_bound(bound: Option<&Sym>, symbol: &Sym) -> bool
    ensures { result ≡ is_bound (option_copied bound.entry) symbol.now }
{
    match bound {
        Some(bound) => bound == symbol,
        None => false,
    }
}

fn put_number(
    alloc: Global,
    out: &mut Vec<Node>,
    symbol: &Sym,
    by: &Replacement,
    bound: Option<&Sym>,
) -> Result<(), AllocError>
    ensures { OnOk result (out.new.items
        ≡ out.old.items
        ++ term_nodes ((change_below (option_copied bound.entry) (change_of by.now)).number symbol.now)) }
{
    if is_bound(bound, symbol) {
        return put_leaf(out, NodeKind::Of(symbol.copy(alloc)?));
    }
    match number_for(by, symbol) {
        Some(term) => put_copies(alloc, out, term.nodes()),
        None => put_leaf(out, NodeKind::Of(symbol.copy(alloc)?)),
    }
}

fn put_array(
    alloc: Global,
    out: &mut Vec<Node>,
    symbol: &Sym,
    by: &Replacement,
) -> Result<(), AllocError>
    ensures { OnOk result (out.new.items ≡ out.old.items ++ array_nodes ((change_of by.now).array symbol.now)) }
{
    match array_for(by, symbol) {
        Some(array) => put_copies(alloc, out, array.nodes()),
        None => put_leaf(out, NodeKind::Base(symbol.copy(alloc)?)),
    }
}

// Puts what becomes of a node.
#[tactic(auto, unfolding(crate::specs::Code::Rewriting::put_node))]
fn put_node(
    alloc: Global,
    out: &mut Vec<Node>,
    kind: &NodeKind,
    by: &Replacement,
    bound: Option<&Sym>,
) -> Result<(), AllocError>
    ensures { OnOk result (out.new.items
        ≡ put_node (change_below (option_copied bound.entry) (change_of by.now)) out.old.items kind.now) }
{
    match kind {
        NodeKind::Of(symbol) => put_number(alloc, out, symbol, by, bound),
        NodeKind::Base(symbol) => put_array(alloc, out, symbol, by),
        NodeKind::Num(_)
        | NodeKind::Add
        | NodeKind::Sub
        | NodeKind::Mul
        | NodeKind::Div
        | NodeKind::Rem
        | NodeKind::Read
        | NodeKind::Truth
        | NodeKind::Store
        | NodeKind::True
        | NodeKind::False
        | NodeKind::Le
        | NodeKind::Eq
        | NodeKind::Not
        | NodeKind::And
        | NodeKind::Or => put_operator(out, kind.copy(alloc)?),
    }
}

// The nodes in which names are replaced. The bound name stays.
fn replaced_nodes(
    alloc: Global,
    nodes: &[Node],
    by: &Replacement,
    bound: Option<&Sym>,
) -> Result<Vec<Node>, AllocError>
    ensures { IfOk result (λ made. made.items
        ≡ put_nodes (change_below (option_copied bound.entry) (change_of by.now)) [] nodes.now) }
{
    let mut out = Vec::with_capacity(alloc, nodes.len())?;
    for node in nodes {
        put_node(alloc, &mut out, &node.kind, by, bound)?;
    }
    Ok(out)
}

fn replaced_in_term(
    alloc: Global,
    term: &Term,
    by: &Replacement,
    bound: Option<&Sym>,
) -> Result<Term, AllocError>
    ensures { IfOk result (λ made. made
        ≡ replaced_term (change_below (option_copied bound.entry) (change_of by.now)) term.now) }
{
    Ok(Term::from_nodes(replaced_nodes(alloc, term.nodes(), by, bound)?))
}

fn replaced_in_form(
    alloc: Global,
    form: &Form,
    by: &Replacement,
    bound: Option<&Sym>,
) -> Result<Form, AllocError>
    ensures { IfOk result (λ made. made
        ≡ replaced_form (change_below (option_copied bound.entry) (change_of by.now)) form.now) }
{
    Ok(Form::from_nodes(replaced_nodes(alloc, form.nodes(), by, bound)?))
}

fn replaced_in_fact(alloc: Global, fact: &Fact, by: &Replacement) -> Result<Fact, AllocError>
    ensures { IfOk result (λ made. made ≡ replaced_fact (change_of by.now) fact.now) }
{
    match fact {
        Fact::Plain(form) => Ok(Fact::Plain(replaced_in_form(alloc, form, by, None)?)),
        Fact::All { var, lo, hi, body } => {
            let lo = replaced_in_term(alloc, lo, by, None)?;
            let hi = replaced_in_term(alloc, hi, by, None)?;
            let body = replaced_in_form(alloc, body, by, Some(var))?;
            Ok(Fact::All {
                var: var.copy(alloc)?,
                lo,
                hi,
                body,
            })
        }
    }
}

/// The form with `by` wherever `name` stands as a number. It is true exactly where `form` is true
/// of what `by` is worth for `name`.
pub fn subst(alloc: Global, form: &Form, name: &Sym, by: &Term) -> Result<Form, AllocError>
    ensures replaced { IfOk result (λ made. made ≡ replaced_form (number_by name.now by.now) form.now) }
    ensures truth { IfOk result (λ made. (v : Interpretation) →
        form_at v made ≡ form_at (with_value v name.now (term_at v by.now)) form.now) }
{
    replaced_in_form(alloc, form, &Replacement::Number(name, by), None)
}

/// The form with `by` wherever `name` stands as an array. It is true exactly where `form` is true
/// of what `by` holds for `name`.
pub fn subst_row(alloc: Global, form: &Form, name: &Sym, by: &ArrayTerm) -> Result<Form, AllocError>
    ensures replaced { IfOk result (λ made. made ≡ replaced_form (array_by name.now by.now) form.now) }
    ensures truth { IfOk result (λ made. (v : Interpretation) →
        form_at v made ≡ form_at (with_array v name.now (array_at v by.now)) form.now) }
{
    replaced_in_form(alloc, form, &Replacement::Array(name, by), None)
}

/// The form in which many names are replaced, all at once. It is true exactly where `form` is true
/// of what stands in for each name.
pub fn subst_all(alloc: Global, form: &Form, by: &Changes) -> Result<Form, AllocError>
    ensures replaced { IfOk result (λ made. made ≡ replaced_form (change_in by.now) form.now) }
    ensures truth { IfOk result (λ made. (v : Interpretation) →
        form_at v made ≡ form_at (changed (change_in by.now) v) form.now) }
{
    replaced_in_form(alloc, form, &Replacement::Many(by), None)
}

/// The term in which many names are replaced, all at once. It is worth what `term` is worth of what
/// stands in for each name.
pub fn subst_term_all(alloc: Global, term: &Term, by: &Changes) -> Result<Term, AllocError>
    ensures replaced { IfOk result (λ made. made ≡ replaced_term (change_in by.now) term.now) }
    ensures worth { IfOk result (λ made. (v : Interpretation) →
        term_at v made ≡ term_at (changed (change_in by.now) v) term.now) }
{
    replaced_in_term(alloc, term, &Replacement::Many(by), None)
}

/// The fact with `by` wherever `name` stands free as a number. The bound name stays, and `by` may
/// not have it, for which `Fact::captures` is the test. What is made is true exactly where `fact`
/// is true of what `by` is worth for `name`.
pub fn subst_fact(alloc: Global, fact: &Fact, name: &Sym, by: &Term) -> Result<Fact, AllocError>
    requires { captures fact.now (term_names by.now) ≡ false }
    ensures replaced { IfOk result (λ made. made ≡ replaced_fact (number_by name.now by.now) fact.now) }
    ensures truth { IfOk result (λ made. (v : Interpretation) →
        FactAt v made ↔ FactAt (with_value v name.now (term_at v by.now)) fact.now) }
{
    replaced_in_fact(alloc, fact, &Replacement::Number(name, by))
}

/// The fact with `by` wherever `name` stands as an array. `by` may not have the bound name, for
/// which `Fact::captures_row` is the test. What is made is true exactly where `fact` is true of
/// what `by` holds for `name`.
pub fn subst_fact_row(
    alloc: Global,
    fact: &Fact,
    name: &Sym,
    by: &ArrayTerm,
) -> Result<Fact, AllocError>
    requires { captures fact.now (array_names by.now) ≡ false }
    ensures replaced { IfOk result (λ made. made ≡ replaced_fact (array_by name.now by.now) fact.now) }
    ensures truth { IfOk result (λ made. (v : Interpretation) →
        FactAt v made ↔ FactAt (with_array v name.now (array_at v by.now)) fact.now) }
{
    replaced_in_fact(alloc, fact, &Replacement::Array(name, by))
}

/// The fact in which many names are replaced, all at once. The bound name stays, and nothing that is
/// put in may have it. What is made is true exactly where `fact` is true of what stands in for each
/// name.
pub fn subst_fact_all(alloc: Global, fact: &Fact, by: &Changes) -> Result<Fact, AllocError>
    requires { Avoids (change_in by.now) fact.now }
    ensures replaced { IfOk result (λ made. made ≡ replaced_fact (change_in by.now) fact.now) }
    ensures truth { IfOk result (λ made. (v : Interpretation) →
        FactAt v made ↔ FactAt (changed (change_in by.now) v) fact.now) }
{
    replaced_in_fact(alloc, fact, &Replacement::Many(by))
}
