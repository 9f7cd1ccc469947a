//! The arrays of which a fact speaks.

ghost use Rattle.std.specs.Prelude.{◌≡◌, ◌||◌, IfOk, OnOk};
ghost use Rattle.c_lang.specs.Names.{Bytes};
ghost use Rattle.terms.specs.Names.{as_array};
ghost use Rattle.terms.specs.Code.Occurrences.{node_passes, nodes_pass};
ghost use Rattle.expression_conditions.specs.Meanings.{current};
ghost use Rattle.weakest_preconditions.specs.Conditions.{is_array};
ghost use Rattle.initial_conditions.specs.Code.Arrays.{has, mentions_array};

use name_tables::NameTable;
use std::alloc::{AllocError, Global};
use terms::{Fact, Node, NodeKind, Sym};

// Adds the name of an array, where it is a current value.
fn add_array<'f>(table: &mut NameTable<'f, bool>, array: &'f Sym) -> Result<(), AllocError>
    ensures { OnOk result ((x : Bytes) → has table.new x ≡ (has table.old x || is_array (current x) (as_array array.entry.now))) }
{
    if array.count == 0 {
        table.put(&array.base, true)?;
    }
    Ok(())
}

// Adds the array of a node, if it has one.
#[tactic(auto, unfolding(terms::specs::Code::Occurrences::node_passes))]
fn add_node<'f>(table: &mut NameTable<'f, bool>, kind: &'f NodeKind) -> Result<(), AllocError>
    ensures { OnOk result ((x : Bytes) → has table.new x ≡ (has table.old x || node_passes (is_array (current x)) kind.entry.now)) }
{
    match kind {
        NodeKind::Base(array) => add_array(table, array),
        // A number of that name is something else.
        NodeKind::Of(_) => Ok(()),
        NodeKind::Num(_)
        | NodeKind::Add
        | NodeKind::Sub
        | NodeKind::Mul
        | NodeKind::Div
        | NodeKind::Rem
        | NodeKind::Read
        | NodeKind::Truth
        | NodeKind::Store
        | NodeKind::True
        | NodeKind::False
        | NodeKind::Le
        | NodeKind::Eq
        | NodeKind::Not
        | NodeKind::And
        | NodeKind::Or => Ok(()),
    }
}

fn add_nodes<'f>(table: &mut NameTable<'f, bool>, nodes: &'f [Node]) -> Result<(), AllocError>
    ensures { OnOk result ((x : Bytes) → has table.new x ≡ (has table.old x || nodes_pass (is_array (current x)) nodes.entry.now)) }
{
    for node in nodes {
        add_node(table, &node.kind)?;
    }
    Ok(())
}

fn add_fact<'f>(table: &mut NameTable<'f, bool>, fact: &'f Fact) -> Result<(), AllocError>
    ensures { OnOk result ((x : Bytes) → has table.new x ≡ (has table.old x || mentions_array fact.entry.now x)) }
{
    match fact {
        Fact::Plain(form) => add_nodes(table, form.nodes()),
        Fact::All { lo, hi, body, .. } => {
            add_nodes(table, lo.nodes())?;
            add_nodes(table, hi.nodes())?;
            add_nodes(table, body.nodes())
        }
    }
}

/// The arrays of which the fact speaks, as a table that has their names. The only error is want of memory.
pub(crate) fn mentioned_arrays<'f>(
    alloc: Global,
    fact: &'f Fact,
) -> Result<NameTable<'f, bool>, AllocError>
    ensures { IfOk result (λ table. (x : Bytes) → has table x ≡ mentions_array fact.entry.now x) }
{
    let mut table = NameTable::new(alloc);
    add_fact(&mut table, fact)?;
    Ok(table)
}
