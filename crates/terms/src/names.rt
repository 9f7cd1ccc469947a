ghost use Rattle.std.specs.Prelude.{◌≡◌, ◌∷◌, [], ◌++◌, flat_map, IfOk, OnOk};
ghost use Rattle.std.specs.Option.{option_copied};
ghost use Rattle.std.specs.List.{list_any};
ghost use Rattle.terms.specs.Symbols.{same_sym};
ghost use Rattle.terms.specs.Names.{Occurrence, symbol, is_number, term_names, array_names, form_names, fact_names, sequent_names, captures, with_name, with_names, distinct, occurs_among, occurs_in_fact, occurs_in_sequent};
ghost use Rattle.terms.specs.Code.Occurrences.{node_passes, nodes_pass, node_names, nodes_names};

use crate::node::{Node, NodeKind};
use crate::replace::is_bound;
use crate::{ArrayTerm, Fact, Form, Sequent, Sort, Sym, Term};
use std::alloc::{AllocError, Global};

impl NodeKind {
    // Whether the node is this name as a number.
    #[tactic(auto, unfolding(crate::specs::Code::Occurrences::node_passes))]
    fn is_number(&self, name: &Sym) -> bool
        ensures { result ≡ node_passes (is_number name.now) self.now }
    {
        match self {
            NodeKind::Of(other) => name == other,
            NodeKind::Base(_)
            | NodeKind::Num(_)
            | NodeKind::Add
            | NodeKind::Sub
            | NodeKind::Mul
            | NodeKind::Div
            | NodeKind::Rem
            | NodeKind::Read
            | NodeKind::Truth
            | NodeKind::Store
            | NodeKind::True
            | NodeKind::False
            | NodeKind::Le
            | NodeKind::Eq
            | NodeKind::Not
            | NodeKind::And
            | NodeKind::Or => false,
        }
    }

    // Whether the node is this name, as a number or as an array.
    #[tactic(auto, unfolding(crate::specs::Code::Occurrences::node_passes))]
    fn is_name(&self, name: &Sym) -> bool
        ensures { result ≡ node_passes (λ o. same_sym name.now (symbol o)) self.now }
    {
        match self {
            NodeKind::Of(other) => name == other,
            NodeKind::Base(other) => name == other,
            NodeKind::Num(_)
            | NodeKind::Add
            | NodeKind::Sub
            | NodeKind::Mul
            | NodeKind::Div
            | NodeKind::Rem
            | NodeKind::Read
            | NodeKind::Truth
            | NodeKind::Store
            | NodeKind::True
            | NodeKind::False
            | NodeKind::Le
            | NodeKind::Eq
            | NodeKind::Not
            | NodeKind::And
            | NodeKind::Or => false,
        }
    }
}

fn has_number(nodes: &[Node], name: &Sym) -> bool
    ensures { result ≡ nodes_pass (is_number name.now) nodes.now }
{
    nodes.iter().any(|node| node.kind.is_number(name))
}

fn has_name(nodes: &[Node], name: &Sym) -> bool
    ensures { result ≡ nodes_pass (λ o. same_sym name.now (symbol o)) nodes.now }
{
    nodes.iter().any(|node| node.kind.is_name(name))
}

impl Fact {
    /// Whether the bound name of the fact stands as a number in `by`. It takes no memory.
    #[tactic(auto, using(crate::proofs::OccurrenceLaws::passing))]
    pub fn captures(&self, by: &Term) -> bool
        ensures { result ≡ captures self.now (term_names by.now) }
    {
        match self {
            Fact::Plain(_) => false,
            Fact::All { var, .. } => has_number(by.nodes(), var),
        }
    }

    /// Whether the bound name of the fact stands as a number in `by`. It takes no memory.
    #[tactic(auto, using(crate::proofs::OccurrenceLaws::passing))]
    pub fn captures_row(&self, by: &ArrayTerm) -> bool
        ensures { result ≡ captures self.now (array_names by.now) }
    {
        match self {
            Fact::Plain(_) => false,
            Fact::All { var, .. } => has_number(by.nodes(), var),
        }
    }

    /// Whether the name stands anywhere in the fact: as a number, as an array, or as its bound name.
    /// It takes no memory.
    #[tactic(auto, using(crate::proofs::OccurrenceLaws::passing))]
    pub fn mentions(&self, name: &Sym) -> bool
        ensures { result ≡ occurs_in_fact name.now self.now }
    {
        match self {
            Fact::Plain(form) => has_name(form.nodes(), name),
            Fact::All { var, lo, hi, body } => {
                name == var
                    || (has_name(lo.nodes(), name)
                        || (has_name(hi.nodes(), name) || has_name(body.nodes(), name)))
            }
        }
    }
}

fn has_sort(sorts: &[(Sym, Sort)], name: &Sym) -> bool
    ensures { result ≡ list_any (λ e. same_sym name.now e.0) sorts.now }
{
    sorts.iter().any(|entry| name == &entry.0)
}

fn is_in_facts(facts: &[Fact], name: &Sym) -> bool
    ensures { result ≡ list_any (occurs_in_fact name.now) facts.now }
{
    facts.iter().any(|fact| fact.mentions(name))
}

impl Sequent {
    /// Whether the name stands anywhere in the sequent, its sorts and bound names included. It takes
    /// no memory.
    pub fn mentions(&self, name: &Sym) -> bool
        ensures { result ≡ occurs_in_sequent name.now self.now }
    {
        has_sort(self.sorts.as_slice(), name)
            || (is_in_facts(self.hyps.as_slice(), name) || self.goal.mentions(name))
    }
}

fn is_among(name: &Sym, names: &[Sym]) -> bool
    ensures { result ≡ list_any (λ other. same_sym other name.now) names.now }
{
    names.iter().any(|other| other == name)
}

// Adds the name at the end, if the list doesn't have it yet.
fn add_name(alloc: Global, names: &mut Vec<Sym>, name: &Sym) -> Result<(), AllocError>
    ensures { OnOk result (names.new.items ≡ with_name names.old.items name.now) }
{
    if is_among(name, names.as_slice()) {
        return Ok(());
    }
    names.push(name.copy(alloc)?)?;
    Ok(())
}

// Adds the name of a node, if it has one other than the bound number.
#[tactic(auto, unfolding(crate::specs::Code::Occurrences::node_names), using(crate::proofs::FreeLaws::adding))]
fn add_node(
    alloc: Global,
    names: &mut Vec<Sym>,
    kind: &NodeKind,
    bound: Option<&Sym>,
) -> Result<(), AllocError>
    ensures { OnOk result
        (names.new.items ≡ with_names names.old.items (node_names (option_copied bound.entry) kind.now)) }
{
    match kind {
        NodeKind::Of(name) => {
            if is_bound(bound, name) {
                Ok(())
            } else {
                add_name(alloc, names, name)
            }
        }
        NodeKind::Base(name) => add_name(alloc, names, name),
        NodeKind::Num(_)
        | NodeKind::Add
        | NodeKind::Sub
        | NodeKind::Mul
        | NodeKind::Div
        | NodeKind::Rem
        | NodeKind::Read
        | NodeKind::Truth
        | NodeKind::Store
        | NodeKind::True
        | NodeKind::False
        | NodeKind::Le
        | NodeKind::Eq
        | NodeKind::Not
        | NodeKind::And
        | NodeKind::Or => Ok(()),
    }
}

#[tactic(auto, using(crate::proofs::FreeLaws::adding))]
fn add_nodes(
    alloc: Global,
    names: &mut Vec<Sym>,
    nodes: &[Node],
    bound: Option<&Sym>,
) -> Result<(), AllocError>
    ensures { OnOk result
        (names.new.items ≡ with_names names.old.items (nodes_names (option_copied bound.entry) nodes.now)) }
{
    for node in nodes {
        add_node(alloc, names, &node.kind, bound)?;
    }
    Ok(())
}

#[tactic(auto, using(crate::proofs::OccurrenceLaws::free_names, crate::proofs::FreeLaws::adding))]
fn add_fact(alloc: Global, names: &mut Vec<Sym>, fact: &Fact) -> Result<(), AllocError>
    ensures { OnOk result (names.new.items ≡ with_names names.old.items (fact_names fact.now)) }
{
    match fact {
        Fact::Plain(form) => add_nodes(alloc, names, form.nodes(), None),
        Fact::All { var, lo, hi, body } => {
            add_nodes(alloc, names, lo.nodes(), None)?;
            add_nodes(alloc, names, hi.nodes(), None)?;
            add_nodes(alloc, names, body.nodes(), Some(var))
        }
    }
}

#[tactic(auto, using(crate::proofs::FreeLaws::adding))]
fn add_facts(alloc: Global, names: &mut Vec<Sym>, facts: &[Fact]) -> Result<(), AllocError>
    ensures { OnOk result
        (names.new.items ≡ with_names names.old.items (flat_map fact_names facts.now)) }
{
    for fact in facts {
        add_fact(alloc, names, fact)?;
    }
    Ok(())
}

/// The names in the form, those of numbers and those of arrays, each once and in the order of
/// their first places. A form binds no name, so all are free.
#[tactic(auto, using(crate::proofs::OccurrenceLaws::free_names, crate::proofs::FreeLaws::gathering))]
pub fn free(alloc: Global, form: &Form) -> Result<Vec<Sym>, AllocError>
    ensures { IfOk result (λ names. names.items ≡ distinct (form_names form.now)) }
{
    let mut names = Vec::new(alloc);
    add_nodes(alloc, &mut names, form.nodes(), None)?;
    Ok(names)
}

/// The free names of the fact, each once and in the order of their first places.
#[tactic(auto, using(crate::proofs::FreeLaws::gathering))]
pub fn free_in_fact(alloc: Global, fact: &Fact) -> Result<Vec<Sym>, AllocError>
    ensures { IfOk result (λ names. names.items ≡ distinct (fact_names fact.now)) }
{
    let mut names = Vec::new(alloc);
    add_fact(alloc, &mut names, fact)?;
    Ok(names)
}

/// The free names of the facts of a sequent, those of its hypotheses first, each once and in the order
/// of their first places.
#[tactic(auto, using(crate::proofs::FreeLaws::adding, crate::proofs::FreeLaws::gathering))]
pub fn free_in_sequent(alloc: Global, hyps: &[Fact], goal: &Fact) -> Result<Vec<Sym>, AllocError>
    ensures { IfOk result (λ names.
        names.items ≡ distinct (flat_map fact_names hyps.now ++ fact_names goal.now)) }
{
    let mut names = Vec::new(alloc);
    add_facts(alloc, &mut names, hyps)?;
    add_fact(alloc, &mut names, goal)?;
    Ok(names)
}
