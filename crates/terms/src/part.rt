ghost use Rattle.std.specs.Prelude.{◌≡◌, ◌<◌, ◌^◌, IfOk};
ghost use Rattle.terms.specs.Nodes.{term_nodes, array_nodes, form_nodes, term_in, array_in, form_in};
ghost use Rattle.terms.specs.Views.{viewed_term, viewed_array, viewed_form};
ghost use Rattle.terms.specs.Code.Operands.{end_size, before_last, last_part};

use crate::build::copied;
use crate::form::{ArrayTerm, Form, Term};
use crate::node::{Node, NodeKind};
use crate::view::{ArrayView, FormView, TermView};
use std::alloc::{AllocError, Global};
use std::marker::Model;

/// The size of the part that ends in the last node.
pub(crate) fn end_size(nodes: &[Node]) -> usize
    ensures size { result ≡ end_size nodes.now }
    ensures small { result < 2 ^ 32 }
{
    match nodes.split_last() {
        Some((node, _)) => node.size as usize,
        None => 0,
    }
}

/// The part that ends in the last node, behind what stands before it.
#[tactic(auto, unfolding(crate::specs::Code::Operands::before_last, crate::specs::Code::Operands::last_part))]
pub(crate) fn apart(nodes: &[Node]) -> (&[Node], &[Node])
    ensures first { result.0.now ≡ before_last nodes.now }
    ensures last { result.1.now ≡ last_part nodes.now }
{
    nodes.split_at(nodes.len().saturating_sub(end_size(nodes)))
}

/// A term that stands in a formula.
#[derive(Debug, Drop)]
pub struct TermRef<'a> {
    nodes: &'a [Node],
}

impl<'a> Model for TermRef<'a> {
    ghost use Rattle.terms.specs.Trees.{TermTree};

    ghost Value = { TermTree };

    ghost use Rattle.std.specs.Coded.{code_by, coded_list, codes};
    ghost use Rattle.std.specs.Prelude.{List, ◌≡◌};
    ghost use Rattle.terms.specs.declared.node.Node.{Node};
    ghost use Rattle.terms.specs.contracts.node.Node as node;
    ghost use Rattle.terms.specs.Nodes.{term_nodes, term_in};
    ghost use Rattle.terms.specs.Code.NodeLaws.{term_in-nodes};

    ghost coded = { code_by (List Node) (Prim.hlevel (codes, node.the_row.coded)) term_nodes term_in term_in-nodes };

    ghost view = { λ t. term_in t.nodes.now };

    ghost invariant = { λ t. t.nodes.now ≡ term_nodes (term_in t.nodes.now) };
}

/// An array that stands in a formula.
#[derive(Debug, Drop)]
pub struct ArrayRef<'a> {
    nodes: &'a [Node],
}

impl<'a> Model for ArrayRef<'a> {
    ghost use Rattle.terms.specs.Trees.{ArrayTree};

    ghost Value = { ArrayTree };

    ghost use Rattle.std.specs.Coded.{code_by, coded_list, codes};
    ghost use Rattle.std.specs.Prelude.{List, ◌≡◌};
    ghost use Rattle.terms.specs.declared.node.Node.{Node};
    ghost use Rattle.terms.specs.contracts.node.Node as node;
    ghost use Rattle.terms.specs.Nodes.{array_nodes, array_in};
    ghost use Rattle.terms.specs.Code.NodeLaws.{array_in-nodes};

    ghost coded = { code_by (List Node) (Prim.hlevel (codes, node.the_row.coded)) array_nodes array_in array_in-nodes };

    ghost view = { λ t. array_in t.nodes.now };

    ghost invariant = { λ t. t.nodes.now ≡ array_nodes (array_in t.nodes.now) };
}

/// A form that stands in a formula.
#[derive(Debug, Drop)]
pub struct FormRef<'a> {
    nodes: &'a [Node],
}

impl<'a> Model for FormRef<'a> {
    ghost use Rattle.terms.specs.Trees.{FormTree};

    ghost Value = { FormTree };

    ghost use Rattle.std.specs.Coded.{code_by, coded_list, codes};
    ghost use Rattle.std.specs.Prelude.{List, ◌≡◌};
    ghost use Rattle.terms.specs.declared.node.Node.{Node};
    ghost use Rattle.terms.specs.contracts.node.Node as node;
    ghost use Rattle.terms.specs.Nodes.{form_nodes, form_in};
    ghost use Rattle.terms.specs.Code.NodeLaws.{form_in-nodes};

    ghost coded = { code_by (List Node) (Prim.hlevel (codes, node.the_row.coded)) form_nodes form_in form_in-nodes };

    ghost view = { λ t. form_in t.nodes.now };

    ghost invariant = { λ t. t.nodes.now ≡ form_nodes (form_in t.nodes.now) };
}

impl<'a> TermRef<'a> {
    pub(crate) fn of(nodes: &'a [Node]) -> TermRef<'a>
        requires { nodes.now ≡ term_nodes (term_in nodes.now) }
        ensures { result ≡ term_in nodes.now }
    {
        TermRef { nodes }
    }

    /// The nodes of the term, in postfix order.
    pub fn nodes(&self) -> &'a [Node]
        ensures { result.now ≡ term_nodes self.now }
    {
        self.nodes
    }

    /// The term as one of its own.
    pub fn copy(&self, alloc: Global) -> Result<Term, AllocError>
        ensures { IfOk result (λ copy. copy ≡ self.now) }
    {
        Ok(Term::from_nodes(copied(alloc, self.nodes)?))
    }

    /// The same term again.
    pub fn again(&self) -> TermRef<'a>
        ensures { result ≡ self.now }
    {
        TermRef { nodes: self.nodes }
    }

    /// The term by its outermost operator. It takes no memory.
    pub fn view(&self) -> TermView<'a>
        ensures { viewed_term result ≡ self.now }
    {
        let Some((root, operands)) = self.nodes.split_last() else {
            unreachable!()
        };
        match &root.kind {
            NodeKind::Num(number) => TermView::Num(*number),
            NodeKind::Of(name) => TermView::Of(name),
            NodeKind::Add => {
                let (first, last) = apart(operands);
                TermView::Add(TermRef { nodes: first }, TermRef { nodes: last })
            }
            NodeKind::Sub => {
                let (first, last) = apart(operands);
                TermView::Sub(TermRef { nodes: first }, TermRef { nodes: last })
            }
            NodeKind::Mul => {
                let (first, last) = apart(operands);
                TermView::Mul(TermRef { nodes: first }, TermRef { nodes: last })
            }
            NodeKind::Div => {
                let (first, last) = apart(operands);
                TermView::Div(TermRef { nodes: first }, TermRef { nodes: last })
            }
            NodeKind::Rem => {
                let (first, last) = apart(operands);
                TermView::Rem(TermRef { nodes: first }, TermRef { nodes: last })
            }
            NodeKind::Read => {
                let (first, last) = apart(operands);
                TermView::Read(ArrayRef { nodes: first }, TermRef { nodes: last })
            }
            NodeKind::Truth => TermView::Truth(FormRef { nodes: operands }),
            NodeKind::Base(_)
            | NodeKind::Store
            | NodeKind::True
            | NodeKind::False
            | NodeKind::Le
            | NodeKind::Eq
            | NodeKind::Not
            | NodeKind::And
            | NodeKind::Or => unreachable!(),
        }
    }
}

impl<'a> ArrayRef<'a> {
    pub(crate) fn of(nodes: &'a [Node]) -> ArrayRef<'a>
        requires { nodes.now ≡ array_nodes (array_in nodes.now) }
        ensures { result ≡ array_in nodes.now }
    {
        ArrayRef { nodes }
    }

    /// The nodes of the array, in postfix order.
    pub fn nodes(&self) -> &'a [Node]
        ensures { result.now ≡ array_nodes self.now }
    {
        self.nodes
    }

    /// The array as one of its own.
    pub fn copy(&self, alloc: Global) -> Result<ArrayTerm, AllocError>
        ensures { IfOk result (λ copy. copy ≡ self.now) }
    {
        Ok(ArrayTerm::from_nodes(copied(alloc, self.nodes)?))
    }

    /// The same array again.
    pub fn again(&self) -> ArrayRef<'a>
        ensures { result ≡ self.now }
    {
        ArrayRef { nodes: self.nodes }
    }

    /// The array by its outermost operator. It takes no memory.
    pub fn view(&self) -> ArrayView<'a>
        ensures { viewed_array result ≡ self.now }
    {
        let Some((root, operands)) = self.nodes.split_last() else {
            unreachable!()
        };
        match &root.kind {
            NodeKind::Base(name) => ArrayView::Base(name),
            NodeKind::Store => {
                let (front, value) = apart(operands);
                let (inner, index) = apart(front);
                ArrayView::Store(
                    ArrayRef { nodes: inner },
                    TermRef { nodes: index },
                    TermRef { nodes: value },
                )
            }
            NodeKind::Num(_)
            | NodeKind::Of(_)
            | NodeKind::Add
            | NodeKind::Sub
            | NodeKind::Mul
            | NodeKind::Div
            | NodeKind::Rem
            | NodeKind::Read
            | NodeKind::Truth
            | NodeKind::True
            | NodeKind::False
            | NodeKind::Le
            | NodeKind::Eq
            | NodeKind::Not
            | NodeKind::And
            | NodeKind::Or => unreachable!(),
        }
    }
}

impl<'a> FormRef<'a> {
    pub(crate) fn of(nodes: &'a [Node]) -> FormRef<'a>
        requires { nodes.now ≡ form_nodes (form_in nodes.now) }
        ensures { result ≡ form_in nodes.now }
    {
        FormRef { nodes }
    }

    /// The nodes of the form, in postfix order.
    pub fn nodes(&self) -> &'a [Node]
        ensures { result.now ≡ form_nodes self.now }
    {
        self.nodes
    }

    /// The form as one of its own.
    pub fn copy(&self, alloc: Global) -> Result<Form, AllocError>
        ensures { IfOk result (λ copy. copy ≡ self.now) }
    {
        Ok(Form::from_nodes(copied(alloc, self.nodes)?))
    }

    /// The same form again.
    pub fn again(&self) -> FormRef<'a>
        ensures { result ≡ self.now }
    {
        FormRef { nodes: self.nodes }
    }

    /// The form by its outermost operator. It takes no memory.
    pub fn view(&self) -> FormView<'a>
        ensures { viewed_form result ≡ self.now }
    {
        let Some((root, operands)) = self.nodes.split_last() else {
            unreachable!()
        };
        match &root.kind {
            NodeKind::True => FormView::True,
            NodeKind::False => FormView::False,
            NodeKind::Le => {
                let (first, last) = apart(operands);
                FormView::Le(TermRef { nodes: first }, TermRef { nodes: last })
            }
            NodeKind::Eq => {
                let (first, last) = apart(operands);
                FormView::Eq(TermRef { nodes: first }, TermRef { nodes: last })
            }
            NodeKind::Not => FormView::Not(FormRef { nodes: operands }),
            NodeKind::And => {
                let (first, last) = apart(operands);
                FormView::And(FormRef { nodes: first }, FormRef { nodes: last })
            }
            NodeKind::Or => {
                let (first, last) = apart(operands);
                FormView::Or(FormRef { nodes: first }, FormRef { nodes: last })
            }
            NodeKind::Num(_)
            | NodeKind::Of(_)
            | NodeKind::Add
            | NodeKind::Sub
            | NodeKind::Mul
            | NodeKind::Div
            | NodeKind::Rem
            | NodeKind::Read
            | NodeKind::Truth
            | NodeKind::Base(_)
            | NodeKind::Store => unreachable!(),
        }
    }
}
