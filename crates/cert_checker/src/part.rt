//! Formulas taken apart from the outermost operator on, with the parts that are still to do on a stack.

ghost use Rattle.std.specs.Prelude.{◌≡◌, ◌<◌, ◌∷◌, ◌++◌, [], reverse, OnOk};
ghost use Rattle.terms.specs.Trees.{number, name, array};
ghost use Rattle.terms.specs.Nodes.{term_nodes, array_nodes, form_nodes};
ghost use Rattle.cert_checker.specs.declared.part.Part.TheVariants as part;
ghost use Rattle.cert_checker.specs.Code.Parts.{opened_term, opened_array, opened_form, leaf_of_term, leaf_of_array, leaf_of_form};

use std::alloc::{AllocError, Global};
use terms::build::put_copies;
use terms::{ArrayRef, ArrayView, FormRef, FormView, Node, NodeKind, TermRef, TermView};

/// A part of a formula that is still to do, or the operator of the parts before it.
#[derive(Debug, Drop)]
pub(crate) enum Part<'a> {
    Term(TermRef<'a>),
    Array(ArrayRef<'a>),
    Form(FormRef<'a>),
    Operator(NodeKind),
}

fn push_part<'a>(parts: &mut Vec<Part<'a>>, next: Part<'a>) -> Result<(), AllocError>
    ensures { OnOk result (reverse parts.new.items ≡ next.entry ∷ reverse parts.old.items) }
{
    parts.push(next)?;
    Ok(())
}

// A part, and then its operator.
fn push_one<'a>(parts: &mut Vec<Part<'a>>, kind: NodeKind, only: Part<'a>) -> Result<(), AllocError>
    ensures { OnOk result (reverse parts.new.items ≡ only.entry ∷ (part.Operator kind ∷ reverse parts.old.items)) }
{
    push_part(parts, Part::Operator(kind))?;
    push_part(parts, only)
}

// Two parts, and then their operator.
fn push_two<'a>(
    parts: &mut Vec<Part<'a>>,
    kind: NodeKind,
    left: Part<'a>,
    right: Part<'a>,
) -> Result<(), AllocError>
    ensures { OnOk result (reverse parts.new.items
        ≡ left.entry ∷ (right.entry ∷ (part.Operator kind ∷ reverse parts.old.items))) }
{
    push_one(parts, kind, right)?;
    push_part(parts, left)
}

/// A term's parts, and its operator.
pub(crate) fn open_term<'a>(term: TermRef<'a>, parts: &mut Vec<Part<'a>>) -> Result<(), AllocError>
    ensures { OnOk result (reverse parts.new.items ≡ opened_term term.entry ++ reverse parts.old.items) }
{
    match term.view() {
        TermView::Num(_) => Ok(()),
        TermView::Of(_) => Ok(()),
        TermView::Add(left, right) => push_two(
            parts,
            NodeKind::Add,
            Part::Term(left),
            Part::Term(right),
        ),
        TermView::Sub(left, right) => push_two(
            parts,
            NodeKind::Sub,
            Part::Term(left),
            Part::Term(right),
        ),
        TermView::Mul(left, right) => push_two(
            parts,
            NodeKind::Mul,
            Part::Term(left),
            Part::Term(right),
        ),
        TermView::Div(left, right) => push_two(
            parts,
            NodeKind::Div,
            Part::Term(left),
            Part::Term(right),
        ),
        TermView::Rem(left, right) => push_two(
            parts,
            NodeKind::Rem,
            Part::Term(left),
            Part::Term(right),
        ),
        TermView::Read(left, right) => push_two(
            parts,
            NodeKind::Read,
            Part::Array(left),
            Part::Term(right),
        ),
        TermView::Truth(form) => push_one(parts, NodeKind::Truth, Part::Form(form)),
    }
}

/// An array's parts, and its operator.
pub(crate) fn open_array<'a>(
    array: ArrayRef<'a>,
    parts: &mut Vec<Part<'a>>,
) -> Result<(), AllocError>
    ensures { OnOk result (reverse parts.new.items ≡ opened_array array.entry ++ reverse parts.old.items) }
{
    match array.view() {
        ArrayView::Base(_) => Ok(()),
        ArrayView::Store(inner, index, value) => {
            push_two(parts, NodeKind::Store, Part::Term(index), Part::Term(value))?;
            push_part(parts, Part::Array(inner))
        }
    }
}

/// A form's parts, and its operator.
pub(crate) fn open_form<'a>(form: FormRef<'a>, parts: &mut Vec<Part<'a>>) -> Result<(), AllocError>
    ensures { OnOk result (reverse parts.new.items ≡ opened_form form.entry ++ reverse parts.old.items) }
{
    match form.view() {
        FormView::True => Ok(()),
        FormView::False => Ok(()),
        FormView::Le(left, right) => push_two(
            parts,
            NodeKind::Le,
            Part::Term(left),
            Part::Term(right),
        ),
        FormView::Eq(left, right) => push_two(
            parts,
            NodeKind::Eq,
            Part::Term(left),
            Part::Term(right),
        ),
        FormView::And(left, right) => push_two(
            parts,
            NodeKind::And,
            Part::Form(left),
            Part::Form(right),
        ),
        FormView::Or(left, right) => push_two(
            parts,
            NodeKind::Or,
            Part::Form(left),
            Part::Form(right),
        ),
        FormView::Not(form) => push_one(parts, NodeKind::Not, Part::Form(form)),
    }
}

/// Puts a term that has no parts.
pub(crate) fn put_leaf_term(
    alloc: Global,
    term: &TermRef<'_>,
    out: &mut Vec<Node>,
) -> Result<(), AllocError>
    ensures { OnOk result (out.new.items ≡ out.old.items ++ leaf_of_term term.now) }
{
    match term.view() {
        TermView::Num(_) => put_copies(alloc, out, term.nodes()),
        TermView::Of(_) => put_copies(alloc, out, term.nodes()),
        TermView::Add(_, _) => Ok(()),
        TermView::Sub(_, _) => Ok(()),
        TermView::Mul(_, _) => Ok(()),
        TermView::Div(_, _) => Ok(()),
        TermView::Rem(_, _) => Ok(()),
        TermView::Read(_, _) => Ok(()),
        TermView::Truth(_) => Ok(()),
    }
}

/// Puts an array that has no parts.
pub(crate) fn put_leaf_array(
    alloc: Global,
    array: &ArrayRef<'_>,
    out: &mut Vec<Node>,
) -> Result<(), AllocError>
    ensures { OnOk result (out.new.items ≡ out.old.items ++ leaf_of_array array.now) }
{
    match array.view() {
        ArrayView::Base(_) => put_copies(alloc, out, array.nodes()),
        ArrayView::Store(_, _, _) => Ok(()),
    }
}

/// Puts a form that has no parts.
pub(crate) fn put_leaf_form(
    alloc: Global,
    form: &FormRef<'_>,
    out: &mut Vec<Node>,
) -> Result<(), AllocError>
    ensures { OnOk result (out.new.items ≡ out.old.items ++ leaf_of_form form.now) }
{
    match form.view() {
        FormView::True => put_copies(alloc, out, form.nodes()),
        FormView::False => put_copies(alloc, out, form.nodes()),
        FormView::Le(_, _) => Ok(()),
        FormView::Eq(_, _) => Ok(()),
        FormView::And(_, _) => Ok(()),
        FormView::Or(_, _) => Ok(()),
        FormView::Not(_) => Ok(()),
    }
}

/// A term's parts, and its operator; or the term itself, where it has no parts.
pub(crate) fn take_term<'a>(
    alloc: Global,
    term: TermRef<'a>,
    parts: &mut Vec<Part<'a>>,
    out: &mut Vec<Node>,
) -> Result<(), AllocError>
    ensures parts { OnOk result (reverse parts.new.items ≡ opened_term term.entry ++ reverse parts.old.items) }
    ensures leaf { OnOk result (out.new.items ≡ out.old.items ++ leaf_of_term term.entry) }
{
    put_leaf_term(alloc, &term, out)?;
    open_term(term, parts)
}

/// An array's parts, and its operator; or the array itself, where it has no parts.
pub(crate) fn take_array<'a>(
    alloc: Global,
    array: ArrayRef<'a>,
    parts: &mut Vec<Part<'a>>,
    out: &mut Vec<Node>,
) -> Result<(), AllocError>
    ensures parts { OnOk result (reverse parts.new.items ≡ opened_array array.entry ++ reverse parts.old.items) }
    ensures leaf { OnOk result (out.new.items ≡ out.old.items ++ leaf_of_array array.entry) }
{
    put_leaf_array(alloc, &array, out)?;
    open_array(array, parts)
}

/// A form's parts, and its operator; or the form itself, where it has no parts.
pub(crate) fn take_form<'a>(
    alloc: Global,
    form: FormRef<'a>,
    parts: &mut Vec<Part<'a>>,
    out: &mut Vec<Node>,
) -> Result<(), AllocError>
    ensures parts { OnOk result (reverse parts.new.items ≡ opened_form form.entry ++ reverse parts.old.items) }
    ensures leaf { OnOk result (out.new.items ≡ out.old.items ++ leaf_of_form form.entry) }
{
    put_leaf_form(alloc, &form, out)?;
    open_form(form, parts)
}
