ghost use Rattle.std.specs.Prelude.{◌≡◌, [], ◌∷◌, IfOk, OnOk};
ghost use Rattle.terms.specs.declared.fact.Fact.TheVariants.{Plain};
ghost use Rattle.terms.specs.Nodes.{term_size, form_size};
ghost use Rattle.terms.specs.Sizes.{fact_size};
ghost use Rattle.terms.specs.Replacing.{replaced_term, replaced_form, replaced_fact};
ghost use Rattle.loop_invariants.specs.Binding.{BindsBound};
ghost use Rattle.terms.specs.Code.Rewriting.{put_nodes};
ghost use Rattle.symbolic_state.specs.Code.Writing.{change_at, written_in, ValueAt, finished_forms};
ghost use Rattle.symbolic_state.specs.Code.Room.{UpTo, NodesUpTo, IsPut};

use crate::SymbolicState;
use crate::gathered::Gathered;
use std::alloc::{AllocError, Global};
use terms::build::put_operator;
use terms::{Fact, Form, Node, NodeKind, Term};

// The nodes that come in place of a node, and how many steps count for them, if it is a name that stands for something.
fn value_of<'a>(
    state: &'a SymbolicState,
    kind: &NodeKind,
    time: usize,
) -> Option<(&'a [Node], usize)>
    ensures { ValueAt state.now time kind.now result }
{
    match kind {
        NodeKind::Of(symbol) => state.number_value(symbol, time),
        NodeKind::Base(symbol) => state.array_value(symbol, time),
        NodeKind::Num(_)
        | NodeKind::Add
        | NodeKind::Sub
        | NodeKind::Mul
        | NodeKind::Div
        | NodeKind::Rem
        | NodeKind::Read
        | NodeKind::Truth
        | NodeKind::Store
        | NodeKind::True
        | NodeKind::False
        | NodeKind::Le
        | NodeKind::Eq
        | NodeKind::Not
        | NodeKind::And
        | NodeKind::Or => None,
    }
}

// Writes the next node, or goes on to what stands for it.
fn turn<'a>(
    state: &'a SymbolicState,
    alloc: Global,
    out: &mut Vec<Node>,
    parts: &mut Vec<(&'a [Node], usize)>,
) -> Result<(), AllocError>
    ensures { OnOk result (written_in state.now out.new.items parts.new.items
        ≡ written_in state.now out.old.items parts.old.items) }
{
    let Some((nodes, time)) = parts.pop() else {
        return Ok(());
    };
    let Some((node, rest)) = nodes.split_first() else {
        return Ok(());
    };
    parts.push((rest, time))?;
    match value_of(state, &node.kind, time) {
        Some(value) => {
            parts.push(value)?;
            Ok(())
        }
        None => {
            put_operator(out, node.kind.copy(alloc)?)?;
            Ok(())
        }
    }
}

// Writes the nodes with what the names in them stand for behind the first steps, if they aren't more than the room.
fn write<'a>(
    state: &'a SymbolicState,
    alloc: Global,
    nodes: &'a [Node],
    time: usize,
    room: u64,
) -> Result<Option<Vec<Node>>, AllocError>
    ensures { IfOk result (λ made. NodesUpTo room (put_nodes (change_at state.now time) [] nodes.now) made) }
{
    let mut out = Vec::new(alloc);
    let mut parts = Vec::new(alloc);
    parts.push((nodes, time))?;
    for _ in 0..u64::MAX {
        if parts.is_empty() {
            return Ok(Some(out));
        }
        if out.len() as u64 > room {
            return Ok(None);
        }
        turn(state, alloc, &mut out, &mut parts)?;
    }
    Err(AllocError)
}

/// The form with what its names stand for behind the first steps, or nothing where it is larger than the room.
fn finished_form(
    state: &SymbolicState,
    alloc: Global,
    form: &Form,
    time: usize,
    room: u64,
) -> Result<Option<Form>, AllocError>
    ensures { IfOk result (λ made. UpTo room (form_size (replaced_form (change_at state.now time) form.now))
        (replaced_form (change_at state.now time) form.now) made) }
{
    match write(state, alloc, form.nodes(), time, room)? {
        Some(nodes) => Ok(Some(Form::from_nodes(nodes))),
        None => Ok(None),
    }
}

/// The term with what its names stand for behind the first steps, or nothing where it is larger than the room.
fn finished_term(
    state: &SymbolicState,
    alloc: Global,
    term: &Term,
    time: usize,
    room: u64,
) -> Result<Option<Term>, AllocError>
    ensures { IfOk result (λ made. UpTo room (term_size (replaced_term (change_at state.now time) term.now))
        (replaced_term (change_at state.now time) term.now) made) }
{
    match write(state, alloc, term.nodes(), time, room)? {
        Some(nodes) => Ok(Some(Term::from_nodes(nodes))),
        None => Ok(None),
    }
}

/// The fact with what its names stand for behind the first steps, or nothing where it is larger than the room.
pub(crate) fn finished_fact(
    state: &SymbolicState,
    alloc: Global,
    fact: &Fact,
    time: usize,
    room: u64,
) -> Result<Option<Fact>, AllocError>
    requires { BindsBound fact.now }
    ensures { IfOk result (λ made. UpTo room (fact_size (replaced_fact (change_at state.now time) fact.now))
        (replaced_fact (change_at state.now time) fact.now) made) }
{
    match fact {
        Fact::Plain(form) => match finished_form(state, alloc, form, time, room)? {
            Some(form) => Ok(Some(Fact::Plain(form))),
            None => Ok(None),
        },
        Fact::All { var, lo, hi, body } => {
            let Some(lo) = finished_term(state, alloc, lo, time, room)? else {
                return Ok(None);
            };
            let Some(hi) = finished_term(state, alloc, hi, time, room)? else {
                return Ok(None);
            };
            let Some(body) = finished_form(state, alloc, body, time, room)? else {
                return Ok(None);
            };
            Ok(Some(Fact::All {
                var: var.copy(alloc)?,
                lo,
                hi,
                body,
            }))
        }
    }
}

/// Adds the fact with what its names stand for behind the first steps, and answers whether there was room.
pub(crate) fn put_fact(
    state: &SymbolicState,
    alloc: Global,
    gathered: &mut Gathered,
    fact: &Fact,
    time: usize,
) -> Result<bool, AllocError>
    requires { BindsBound fact.now }
    ensures { IfOk result (λ done. IsPut gathered.old gathered.new (replaced_fact (change_at state.now time) fact.now ∷ []) done) }
{
    match finished_fact(state, alloc, fact, time, gathered.left)? {
        Some(made) => gathered.put(made),
        None => Ok(false),
    }
}

// Adds the form as a fact, with what its names stand for behind the first steps, and answers whether there was room.
fn put_form(
    state: &SymbolicState,
    alloc: Global,
    gathered: &mut Gathered,
    form: &Form,
    time: usize,
) -> Result<bool, AllocError>
    ensures { IfOk result (λ done. IsPut gathered.old gathered.new (Plain (replaced_form (change_at state.now time) form.now) ∷ []) done) }
{
    match finished_form(state, alloc, form, time, gathered.left)? {
        Some(made) => gathered.put(Fact::Plain(made)),
        None => Ok(false),
    }
}

/// Adds the forms as facts, with what their names stand for behind the first steps, and answers whether there was room.
pub(crate) fn put_forms(
    state: &SymbolicState,
    alloc: Global,
    gathered: &mut Gathered,
    forms: &[Form],
    time: usize,
) -> Result<bool, AllocError>
    ensures { IfOk result (λ done. IsPut gathered.old gathered.new (finished_forms (change_at state.now time) forms.now) done) }
{
    for form in forms {
        if !put_form(state, alloc, gathered, form, time)? {
            return Ok(false);
        }
    }
    Ok(true)
}
