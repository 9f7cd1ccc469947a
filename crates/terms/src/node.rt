ghost use Rattle.std.specs.Prelude.{◌≡◌, IfOk};

use crate::Sym;
use std::alloc::{AllocError, Global};

/// What a node of a formula is. `Num` is a number, `Of` a name that stands for one, `Base` a name
/// that stands for an array; each of the others is an operator.
#[derive(Debug, Drop)]
pub enum NodeKind {
    Num(i128),
    Of(Sym),
    Add,
    Sub,
    Mul,
    Div,
    Rem,
    Read,
    Truth,
    Base(Sym),
    Store,
    True,
    False,
    Le,
    Eq,
    Not,
    And,
    Or,
}

/// A node, and how many nodes the part of the formula has that ends in it.
#[derive(Debug, Drop)]
pub struct Node {
    pub kind: NodeKind,
    pub size: u32,
}

impl NodeKind {
    /// A copy, since `clone` could not say that it is one.
    pub fn copy(&self, alloc: Global) -> Result<NodeKind, AllocError>
        ensures { IfOk result (λ kind. kind ≡ self.now) }
    {
        Ok(match self {
            NodeKind::Num(number) => NodeKind::Num(*number),
            NodeKind::Of(name) => return Ok(NodeKind::Of(name.copy(alloc)?)),
            NodeKind::Base(name) => return Ok(NodeKind::Base(name.copy(alloc)?)),
            NodeKind::Add => NodeKind::Add,
            NodeKind::Sub => NodeKind::Sub,
            NodeKind::Mul => NodeKind::Mul,
            NodeKind::Div => NodeKind::Div,
            NodeKind::Rem => NodeKind::Rem,
            NodeKind::Read => NodeKind::Read,
            NodeKind::Truth => NodeKind::Truth,
            NodeKind::Store => NodeKind::Store,
            NodeKind::True => NodeKind::True,
            NodeKind::False => NodeKind::False,
            NodeKind::Le => NodeKind::Le,
            NodeKind::Eq => NodeKind::Eq,
            NodeKind::Not => NodeKind::Not,
            NodeKind::And => NodeKind::And,
            NodeKind::Or => NodeKind::Or,
        })
    }
}

impl Node {
    /// A copy, since `clone` could not say that it is one.
    pub fn copy(&self, alloc: Global) -> Result<Node, AllocError>
        ensures { IfOk result (λ node. node ≡ self.now) }
    {
        Ok(Node {
            kind: self.kind.copy(alloc)?,
            size: self.size,
        })
    }
}
