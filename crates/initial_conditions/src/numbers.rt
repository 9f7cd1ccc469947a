//! A fact in which the globals are their numbers at the start of a program.

ghost use Rattle.std.specs.Prelude.{◌≡◌, [], IfOk, OnOk};
ghost use Rattle.terms.specs.Symbols.{same_sym};
ghost use Rattle.terms.specs.Replacing.{replaced_term, replaced_form, replaced_fact};
ghost use Rattle.terms.specs.Code.Rewriting.{put_node, put_nodes};
ghost use Rattle.loop_invariants.specs.Binding.{BindsBound};
ghost use Rattle.loop_invariants.specs.EntryNames as entry;
ghost use Rattle.weakest_preconditions.specs.Changing.{change};
ghost use Rattle.weakest_preconditions.specs.Conditions as spec;
ghost use Rattle.initial_conditions.specs.Code.Numbers.{number_at_start, kind_at_start};

use c_lang::Shape;
use name_tables::ProgramNames;
use std::alloc::{AllocError, Global};
use terms::build::put_operator;
use terms::{Fact, Form, Node, NodeKind, Sym, Term};

// A global's number at the start; 0 for an array, whose name is no number.
fn initial_number(names: &ProgramNames<'_>, shape: &Shape) -> i128
    ensures { result ≡ spec.initial_number names.now shape.now }
{
    match shape {
        Shape::Int(number) => i128::from(*number),
        Shape::Arr(_) => 0,
        Shape::Fp(_, None) => 0,
        Shape::Fp(_, Some(func)) => names.number(func) as i128,
    }
}

// Whether the name is the one that a fact binds.
fn is_bound(symbol: &Sym) -> bool
    ensures { result ≡ same_sym entry.bound symbol.now }
{
    symbol.count == 0 && symbol.base.as_bytes() == b"$".as_slice()
}

// The number at the start of the global whose current value the name is.
fn number_at_start(names: &ProgramNames<'_>, symbol: &Sym) -> Option<i128>
    ensures { result ≡ number_at_start names.now symbol.now }
{
    if symbol.count != 0 || is_bound(symbol) {
        return None;
    }
    let global = names.global(&symbol.base)?;
    Some(initial_number(names, &global.shape))
}

// A node, with its number at the start in place of a global's name.
fn kind_at_start(
    alloc: Global,
    names: &ProgramNames<'_>,
    kind: &NodeKind,
) -> Result<NodeKind, AllocError>
    ensures { IfOk result (λ made. made ≡ kind_at_start names.now kind.now) }
{
    match kind {
        NodeKind::Of(symbol) => match number_at_start(names, symbol) {
            Some(number) => Ok(NodeKind::Num(number)),
            None => kind.copy(alloc),
        },
        NodeKind::Base(_)
        | NodeKind::Num(_)
        | NodeKind::Add
        | NodeKind::Sub
        | NodeKind::Mul
        | NodeKind::Div
        | NodeKind::Rem
        | NodeKind::Read
        | NodeKind::Truth
        | NodeKind::Store
        | NodeKind::True
        | NodeKind::False
        | NodeKind::Le
        | NodeKind::Eq
        | NodeKind::Not
        | NodeKind::And
        | NodeKind::Or => kind.copy(alloc),
    }
}

// Puts what becomes of a node.
#[tactic(auto, using(crate::proofs::NumberLaws::node_is_put))]
fn put_node(
    alloc: Global,
    names: &ProgramNames<'_>,
    out: &mut Vec<Node>,
    kind: &NodeKind,
) -> Result<(), AllocError>
    ensures { OnOk result
        (out.new.items ≡ put_node (change (spec.initial_numbers names.now)) out.old.items kind.now) }
{
    let kind = kind_at_start(alloc, names, kind)?;
    put_operator(out, kind)
}

fn nodes_at_start(
    alloc: Global,
    names: &ProgramNames<'_>,
    nodes: &[Node],
) -> Result<Vec<Node>, AllocError>
    ensures { IfOk result (λ made. made.items ≡ put_nodes (change (spec.initial_numbers names.now)) [] nodes.now) }
{
    let mut out = Vec::with_capacity(alloc, nodes.len())?;
    for node in nodes {
        put_node(alloc, names, &mut out, &node.kind)?;
    }
    Ok(out)
}

fn term_at_start(alloc: Global, names: &ProgramNames<'_>, term: &Term) -> Result<Term, AllocError>
    ensures { IfOk result (λ made. made ≡ replaced_term (change (spec.initial_numbers names.now)) term.now) }
{
    Ok(Term::from_nodes(nodes_at_start(alloc, names, term.nodes())?))
}

fn form_at_start(alloc: Global, names: &ProgramNames<'_>, form: &Form) -> Result<Form, AllocError>
    ensures { IfOk result (λ made. made ≡ replaced_form (change (spec.initial_numbers names.now)) form.now) }
{
    Ok(Form::from_nodes(nodes_at_start(alloc, names, form.nodes())?))
}

/// The fact in which each global is its number at the start. The number that it binds stays. The only error is want
/// of memory.
pub(crate) fn fact_at_start(
    alloc: Global,
    names: &ProgramNames<'_>,
    fact: &Fact,
) -> Result<Fact, AllocError>
    requires { BindsBound fact.now }
    ensures { IfOk result (λ made. made ≡ replaced_fact (change (spec.initial_numbers names.now)) fact.now) }
{
    match fact {
        Fact::Plain(form) => Ok(Fact::Plain(form_at_start(alloc, names, form)?)),
        Fact::All { var, lo, hi, body } => {
            let lo = term_at_start(alloc, names, lo)?;
            let hi = term_at_start(alloc, names, hi)?;
            let body = form_at_start(alloc, names, body)?;
            Ok(Fact::All {
                var: var.copy(alloc)?,
                lo,
                hi,
                body,
            })
        }
    }
}
