//! Lists of nodes put together, for whoever makes a formula node by node.
ghost use Rattle.std.specs.Prelude.{◌≡◌, ◌+◌, ◌<◌, ◌^◌, [], ◌∷◌, ◌++◌, length, IfOk, OnOk};
ghost use Rattle.terms.specs.Nodes.{node};
ghost use Rattle.terms.specs.Code.Rewriting.{operands_size, put_operator};

use crate::node::{Node, NodeKind};
use crate::part::{apart, end_size};
use std::alloc::{AllocError, Global};

/// A node without operands.
pub(crate) fn leaf(alloc: Global, kind: NodeKind) -> Result<Vec<Node>, AllocError>
    ensures { IfOk result (λ made. made.items ≡ node kind 1 ∷ []) }
{
    let mut nodes = Vec::new(alloc);
    nodes.push(Node { kind, size: 1 })?;
    Ok(nodes)
}

/// The operands and their operator. It is want of memory, too, where there would be 2^32 nodes or more.
pub(crate) fn under(mut operands: Vec<Node>, kind: NodeKind) -> Result<Vec<Node>, AllocError>
    ensures { IfOk result (λ made.
        made.items ≡ operands.items ++ (node kind (1 + length operands.items) ∷ [])) }
{
    let Ok(count) = u32::try_from(operands.len()) else {
        return Err(AllocError);
    };
    let Some(size) = count.checked_add(1) else {
        return Err(AllocError);
    };
    operands.push(Node { kind, size })?;
    Ok(operands)
}

/// The nodes of two operands.
pub(crate) fn together(mut first: Vec<Node>, mut last: Vec<Node>) -> Result<Vec<Node>, AllocError>
    ensures { IfOk result (λ made. made.items ≡ first.items ++ last.items) }
{
    first.append(&mut last)?;
    Ok(first)
}

/// A copy of each node, behind what stands there.
pub fn put_copies(alloc: Global, out: &mut Vec<Node>, nodes: &[Node]) -> Result<(), AllocError>
    ensures { OnOk result (out.new.items ≡ out.old.items ++ nodes.now) }
{
    out.reserve(nodes.len())?;
    for node in nodes {
        out.push(node.copy(alloc)?)?;
    }
    Ok(())
}

/// A copy of each node.
pub(crate) fn copied(alloc: Global, nodes: &[Node]) -> Result<Vec<Node>, AllocError>
    ensures { IfOk result (λ copy. copy.items ≡ nodes.now) }
{
    let mut copy = Vec::new(alloc);
    put_copies(alloc, &mut copy, nodes)?;
    Ok(copy)
}

/// Puts a node without operands.
pub fn put_leaf(out: &mut Vec<Node>, kind: NodeKind) -> Result<(), AllocError>
    ensures { OnOk result (out.new.items ≡ out.old.items ++ (node kind 1 ∷ [])) }
{
    out.push(Node { kind, size: 1 })?;
    Ok(())
}

/// The size of the operands that an operator of this kind finds at the end of the nodes.
#[tactic(auto, unfolding(crate::specs::Code::Rewriting::operands_size))]
fn operands_size(kind: &NodeKind, nodes: &[Node]) -> usize
    ensures size { result ≡ operands_size kind.now nodes.now }
    ensures small { result < 2 ^ 34 }
{
    match kind {
        NodeKind::Num(_) | NodeKind::Of(_) | NodeKind::Base(_) | NodeKind::True | NodeKind::False =>
            0,
        NodeKind::Truth | NodeKind::Not => end_size(nodes),
        NodeKind::Store => {
            let (front, _) = apart(nodes);
            let (first, _) = apart(front);
            end_size(first) + (end_size(front) + end_size(nodes))
        }
        NodeKind::Add
        | NodeKind::Sub
        | NodeKind::Mul
        | NodeKind::Div
        | NodeKind::Rem
        | NodeKind::Read
        | NodeKind::Le
        | NodeKind::Eq
        | NodeKind::And
        | NodeKind::Or => {
            let (front, _) = apart(nodes);
            end_size(front) + end_size(nodes)
        }
    }
}

/// Puts an operator behind its operands. It is want of memory, too, where there would be 2^32 nodes or more.
#[tactic(auto, unfolding(crate::specs::Code::Rewriting::put_operator))]
pub fn put_operator(out: &mut Vec<Node>, kind: NodeKind) -> Result<(), AllocError>
    ensures { OnOk result (out.new.items ≡ put_operator out.old.items kind) }
{
    let Ok(size) = u32::try_from(1 + operands_size(&kind, out.as_slice())) else {
        return Err(AllocError);
    };
    out.push(Node { kind, size })?;
    Ok(())
}
