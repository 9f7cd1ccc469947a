//! Puts the texts of forms and terms, by a stack of what is still to be put.

ghost use Rattle.std.specs.Prelude.{◌≡◌, ◌++◌, ◌+◌, ◌*◌, ◌<◌, OnOk, codes};
ghost use Rattle.terms.specs.Trees as tree;
ghost use Rattle.terms.specs.Nodes.{term_size, array_size, form_size};
ghost use Rattle.terms.specs.Views.{viewed_term, viewed_array, viewed_form};
ghost use Rattle.formula_texts.specs.Written as written;
ghost use Rattle.formula_texts.specs.Code.Writing as spec;

use crate::names::{put_name, put_number, put_text};
use crate::pending::{Pending, push};
use std::alloc::{AllocError, Global};
use terms::{ArrayRef, ArrayView, Form, FormRef, FormView, Term, TermRef, TermView};

/// Two terms with a text between.
fn two_terms<'a>(
    stack: &mut Vec<Pending<'a>>,
    left: TermRef<'a>,
    between: &'a [u8],
    right: TermRef<'a>,
) -> Result<(), AllocError>
    ensures text { OnOk result (spec.stack_text stack.new.items ≡ written.term_part left.entry (written.term_text left.entry) ++ (between.now ++ (written.term_part right.entry (written.term_text right.entry) ++ spec.stack_text stack.old.items))) }
    ensures weight { OnOk result (spec.weights stack.new.items ≡ 16 * (term_size left.entry + term_size right.entry) + 9 + spec.weights stack.old.items) }
{
    push(stack, Pending::TermPart(right))?;
    push(stack, Pending::Text(between))?;
    push(stack, Pending::TermPart(left))
}

/// Two forms with a text between.
fn two_forms<'a>(
    stack: &mut Vec<Pending<'a>>,
    left: FormRef<'a>,
    between: &'a [u8],
    right: FormRef<'a>,
) -> Result<(), AllocError>
    ensures text { OnOk result (spec.stack_text stack.new.items ≡ written.form_part left.entry (written.form_text left.entry) ++ (between.now ++ (written.form_part right.entry (written.form_text right.entry) ++ spec.stack_text stack.old.items))) }
    ensures weight { OnOk result (spec.weights stack.new.items ≡ 16 * (form_size left.entry + form_size right.entry) + 9 + spec.weights stack.old.items) }
{
    push(stack, Pending::FormPart(right))?;
    push(stack, Pending::Text(between))?;
    push(stack, Pending::FormPart(left))
}

/// A compound term in brackets, and every other one as it is.
fn term_part<'a>(stack: &mut Vec<Pending<'a>>, term: TermRef<'a>) -> Result<(), AllocError>
    ensures text { OnOk result (spec.stack_text stack.new.items ≡ written.term_part term.entry (written.term_text term.entry) ++ spec.stack_text stack.old.items) }
    ensures less { OnOk result (spec.weights stack.new.items < 16 * term_size term.entry + 4 + spec.weights stack.old.items) }
{
    if !is_compound_term(&term) {
        return push(stack, Pending::Term(term));
    }
    push(stack, Pending::Text(b")"))?;
    push(stack, Pending::Term(term))?;
    push(stack, Pending::Text(b"("))
}

/// A compound form in brackets, and every other one as it is.
fn form_part<'a>(stack: &mut Vec<Pending<'a>>, form: FormRef<'a>) -> Result<(), AllocError>
    ensures text { OnOk result (spec.stack_text stack.new.items ≡ written.form_part form.entry (written.form_text form.entry) ++ spec.stack_text stack.old.items) }
    ensures less { OnOk result (spec.weights stack.new.items < 16 * form_size form.entry + 4 + spec.weights stack.old.items) }
{
    if !is_compound_form(&form) {
        return push(stack, Pending::Form(form));
    }
    push(stack, Pending::Text(b")"))?;
    push(stack, Pending::Form(form))?;
    push(stack, Pending::Text(b"("))
}

fn is_compound_term(term: &TermRef<'_>) -> bool
    ensures { result ≡ written.is_compound_term term.now }
{
    is_compound_term_view(&term.view())
}

fn is_compound_term_view(view: &TermView<'_>) -> bool
    ensures { result ≡ written.is_compound_term (viewed_term view.now) }
{
    match view {
        TermView::Add(_, _) | TermView::Sub(_, _) | TermView::Mul(_, _) => true,
        TermView::Num(_)
        | TermView::Of(_)
        | TermView::Div(_, _)
        | TermView::Rem(_, _)
        | TermView::Read(_, _)
        | TermView::Truth(_) => false,
    }
}

fn is_compound_form(form: &FormRef<'_>) -> bool
    ensures { result ≡ written.is_compound_form form.now }
{
    is_compound_form_view(&form.view())
}

fn is_compound_form_view(view: &FormView<'_>) -> bool
    ensures { result ≡ written.is_compound_form (viewed_form view.now) }
{
    match view {
        FormView::True | FormView::False => false,
        FormView::Le(_, _)
        | FormView::Eq(_, _)
        | FormView::Not(_)
        | FormView::And(_, _)
        | FormView::Or(_, _) => true,
    }
}

/// A quotient or a remainder.
fn in_brackets<'a>(
    stack: &mut Vec<Pending<'a>>,
    left: TermRef<'a>,
    between: &'a [u8],
    right: TermRef<'a>,
) -> Result<(), AllocError>
    ensures text { OnOk result (spec.stack_text stack.new.items ≡ written.in_brackets (written.term_part left.entry (written.term_text left.entry) ++ (between.now ++ written.term_part right.entry (written.term_text right.entry))) ++ spec.stack_text stack.old.items) }
    ensures weight { OnOk result (spec.weights stack.new.items ≡ 16 * (term_size left.entry + term_size right.entry) + 11 + spec.weights stack.old.items) }
{
    push(stack, Pending::Text(b")"))?;
    two_terms(stack, left, between, right)?;
    push(stack, Pending::Text(b"("))
}

/// An element of an array.
fn element<'a>(
    stack: &mut Vec<Pending<'a>>,
    array: ArrayRef<'a>,
    index: TermRef<'a>,
) -> Result<(), AllocError>
    ensures text { OnOk result (spec.stack_text stack.new.items ≡ written.term_text (tree.read array.entry index.entry) ++ spec.stack_text stack.old.items) }
    ensures weight { OnOk result (spec.weights stack.new.items ≡ 16 * (array_size array.entry + term_size index.entry) + 6 + spec.weights stack.old.items) }
{
    push(stack, Pending::Text(b"]"))?;
    push(stack, Pending::TermPart(index))?;
    push(stack, Pending::Text(b"["))?;
    push(stack, Pending::Array(array))
}

/// The truth of a form, where `begin` is how it begins.
fn truth<'a>(
    stack: &mut Vec<Pending<'a>>,
    begin: &'a [u8],
    form: FormRef<'a>,
) -> Result<(), AllocError>
    ensures text { OnOk result (spec.stack_text stack.new.items ≡ begin.now ++ (written.form_part form.entry (written.form_text form.entry) ++ (codes ")" ++ spec.stack_text stack.old.items))) }
    ensures weight { OnOk result (spec.weights stack.new.items ≡ 16 * form_size form.entry + 6 + spec.weights stack.old.items) }
{
    push(stack, Pending::Text(b")"))?;
    push(stack, Pending::FormPart(form))?;
    push(stack, Pending::Text(begin))
}

/// An array with a value stored in it, behind how it begins.
fn stored<'a>(
    stack: &mut Vec<Pending<'a>>,
    array: ArrayRef<'a>,
    index: TermRef<'a>,
    value: TermRef<'a>,
) -> Result<(), AllocError>
    ensures text { OnOk result (spec.stack_text stack.new.items ≡ written.array_text array.entry ++ (codes ", " ++ (written.term_part index.entry (written.term_text index.entry) ++ (codes ", " ++ (written.term_part value.entry (written.term_text value.entry) ++ (codes ")" ++ spec.stack_text stack.old.items)))))) }
    ensures weight { OnOk result (spec.weights stack.new.items ≡ 16 * (array_size array.entry + (term_size index.entry + term_size value.entry)) + 11 + spec.weights stack.old.items) }
{
    push(stack, Pending::Text(b")"))?;
    push(stack, Pending::TermPart(value))?;
    push(stack, Pending::Text(b", "))?;
    push(stack, Pending::TermPart(index))?;
    push(stack, Pending::Text(b", "))?;
    push(stack, Pending::Array(array))
}

/// Puts a term's leaf, or its parts on the stack.
fn put_term_view<'a>(
    alloc: Global,
    out: &mut Vec<u8>,
    stack: &mut Vec<Pending<'a>>,
    view: TermView<'a>,
) -> Result<(), AllocError>
    ensures text { OnOk result (out.new.items ++ spec.stack_text stack.new.items ≡ out.old.items ++ (written.term_text (viewed_term view.entry) ++ spec.stack_text stack.old.items)) }
    ensures less { OnOk result (spec.weights stack.new.items < 16 * term_size (viewed_term view.entry) + spec.weights stack.old.items) }
{
    match view {
        TermView::Num(number) => put_number(out, number),
        TermView::Of(name) => put_name(out, name),
        TermView::Add(left, right) => two_terms(stack, left, b" + ", right),
        TermView::Sub(left, right) => two_terms(stack, left, b" - ", right),
        TermView::Mul(left, right) => two_terms(stack, left, b" * ", right),
        TermView::Div(left, right) => in_brackets(stack, left, b" / ", right),
        TermView::Rem(left, right) => in_brackets(stack, left, b" % ", right),
        TermView::Read(array, index) => element(stack, array, index),
        TermView::Truth(form) => truth(stack, b"$truth(", form),
    }
}

/// Puts an array's name, or its parts on the stack.
fn put_array_view<'a>(
    alloc: Global,
    out: &mut Vec<u8>,
    stack: &mut Vec<Pending<'a>>,
    view: ArrayView<'a>,
) -> Result<(), AllocError>
    ensures text { OnOk result (out.new.items ++ spec.stack_text stack.new.items ≡ out.old.items ++ (written.array_text (viewed_array view.entry) ++ spec.stack_text stack.old.items)) }
    ensures less { OnOk result (spec.weights stack.new.items < 16 * array_size (viewed_array view.entry) + spec.weights stack.old.items) }
{
    match view {
        ArrayView::Base(name) => put_name(out, name),
        ArrayView::Store(array, index, value) => {
            put_text(out, b"$store(")?;
            stored(stack, array, index, value)
        }
    }
}

/// Puts a constant, or a form's parts on the stack.
fn put_form_view<'a>(
    out: &mut Vec<u8>,
    stack: &mut Vec<Pending<'a>>,
    view: FormView<'a>,
) -> Result<(), AllocError>
    ensures text { OnOk result (out.new.items ++ spec.stack_text stack.new.items ≡ out.old.items ++ (written.form_text (viewed_form view.entry) ++ spec.stack_text stack.old.items)) }
    ensures less { OnOk result (spec.weights stack.new.items < 16 * form_size (viewed_form view.entry) + spec.weights stack.old.items) }
{
    match view {
        FormView::True => put_text(out, b"$true"),
        FormView::False => put_text(out, b"$false"),
        FormView::Le(left, right) => two_terms(stack, left, b" <= ", right),
        FormView::Eq(left, right) => two_terms(stack, left, b" == ", right),
        FormView::Not(form) => {
            put_text(out, b"not ")?;
            push(stack, Pending::FormPart(form))
        }
        FormView::And(left, right) => two_forms(stack, left, b" and ", right),
        FormView::Or(left, right) => two_forms(stack, left, b" or ", right),
    }
}

/// Puts what stood at the top of the stack, or its parts on the stack.
fn put_top<'a>(
    alloc: Global,
    out: &mut Vec<u8>,
    stack: &mut Vec<Pending<'a>>,
    top: Pending<'a>,
) -> Result<(), AllocError>
    ensures text { OnOk result (out.new.items ++ spec.stack_text stack.new.items ≡ out.old.items ++ (spec.pending_text top.entry ++ spec.stack_text stack.old.items)) }
    ensures less { OnOk result (spec.weights stack.new.items < spec.weight top.entry + spec.weights stack.old.items) }
{
    match top {
        Pending::Text(text) => put_text(out, text),
        Pending::Term(term) => put_term_view(alloc, out, stack, term.view()),
        Pending::TermPart(term) => term_part(stack, term),
        Pending::Array(array) => put_array_view(alloc, out, stack, array.view()),
        Pending::Form(form) => put_form_view(out, stack, form.view()),
        Pending::FormPart(form) => form_part(stack, form),
    }
}

/// Puts all that is on the stack.
#[tactic(auto, using(crate::proofs::StackLaws::top_text, crate::proofs::StackLaws::top_weight))]
fn put_all<'a>(
    alloc: Global,
    out: &mut Vec<u8>,
    stack: &mut Vec<Pending<'a>>,
) -> Result<(), AllocError>
    ensures { OnOk result (out.new.items ≡ out.old.items ++ spec.stack_text stack.old.items) }
{
    while let Some(top) = stack.pop() {
        put_top(alloc, out, stack, top)?;
    }
    Ok(())
}

/// Appends the text of a form. It takes no more of the stack than one call, however deep the form is.
/// The only error is want of memory; then a part of the text may have been appended.
#[tactic(auto, unfolding(crate::specs::Code::Writing::stack_text))]
pub fn put_form(alloc: Global, out: &mut Vec<u8>, form: &Form) -> Result<(), AllocError>
    ensures { OnOk result (out.new.items ≡ out.old.items ++ written.form_text form.now) }
{
    let mut stack = Vec::new(alloc);
    push(&mut stack, Pending::Form(form.as_ref()))?;
    put_all(alloc, out, &mut stack)
}

/// Appends the text of a term. It takes no more of the stack than one call, however deep the term is.
/// The only error is want of memory; then a part of the text may have been appended.
#[tactic(auto, unfolding(crate::specs::Code::Writing::stack_text))]
pub fn put_term(alloc: Global, out: &mut Vec<u8>, term: &Term) -> Result<(), AllocError>
    ensures { OnOk result (out.new.items ≡ out.old.items ++ written.term_text term.now) }
{
    let mut stack = Vec::new(alloc);
    push(&mut stack, Pending::Term(term.as_ref()))?;
    put_all(alloc, out, &mut stack)
}
