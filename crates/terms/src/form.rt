ghost use Rattle.std.specs.Prelude.{◌≡◌, IfOk};
ghost use Rattle.terms.specs.Trees.{number, name, plus, minus, times, divided, remainder, read, truth, array, stored, always, never, at_most, equal, denied, both, either};
ghost use Rattle.terms.specs.Nodes.{term_nodes, array_nodes, form_nodes, term_in, array_in, form_in};
ghost use Rattle.terms.specs.Views.{viewed_term, viewed_array, viewed_form};

use crate::Sym;
use crate::build::{copied, leaf, together, under};
use crate::node::{Node, NodeKind};
use crate::part::{ArrayRef, FormRef, TermRef};
use crate::view::{ArrayView, FormView, TermView};
use std::alloc::{AllocError, Global};
use std::marker::Model;

/// A term, which is worth a whole number without bound. A quotient is rounded toward zero and is 0 by 0,
/// a remainder is `a - (a / b) * b`, the truth of a form is 1 or 0. Its nodes stand in postfix order, so
/// that no call goes as deep as a term may be. Contracts see it as a tree.
#[derive(Debug)]
pub struct Term {
    nodes: Vec<Node>,
}

// By hand, so that a proof has one step for each that is dropped.
impl Drop for Term {
    fn drop(self) {
        let Term { nodes: _nodes } = self;
    }
}

impl Model for Term {
    ghost use Rattle.terms.specs.Trees.{TermTree};

    ghost Value = { TermTree };

    ghost use Rattle.std.specs.Coded.{code_by, coded_list, codes};
    ghost use Rattle.std.specs.Prelude.{List, ◌≡◌};
    ghost use Rattle.terms.specs.declared.node.Node.{Node};
    ghost use Rattle.terms.specs.contracts.node.Node as node;
    ghost use Rattle.terms.specs.Nodes.{term_nodes, term_in};
    ghost use Rattle.terms.specs.Code.NodeLaws.{term_in-nodes};

    ghost coded = { code_by (List Node) (Prim.hlevel (codes, node.the_row.coded)) term_nodes term_in term_in-nodes };

    ghost view = { λ t. term_in t.nodes.items };

    ghost invariant = { λ t. t.nodes.items ≡ term_nodes (term_in t.nodes.items) };
}

/// An array: a name, or another array with a value stored at an index. Its nodes stand in postfix
/// order. Contracts see it as a tree.
#[derive(Debug)]
pub struct ArrayTerm {
    nodes: Vec<Node>,
}

// By hand, so that a proof has one step for each that is dropped.
impl Drop for ArrayTerm {
    fn drop(self) {
        let ArrayTerm { nodes: _nodes } = self;
    }
}

impl Model for ArrayTerm {
    ghost use Rattle.terms.specs.Trees.{ArrayTree};

    ghost Value = { ArrayTree };

    ghost use Rattle.std.specs.Coded.{code_by, coded_list, codes};
    ghost use Rattle.std.specs.Prelude.{List, ◌≡◌};
    ghost use Rattle.terms.specs.declared.node.Node.{Node};
    ghost use Rattle.terms.specs.contracts.node.Node as node;
    ghost use Rattle.terms.specs.Nodes.{array_nodes, array_in};
    ghost use Rattle.terms.specs.Code.NodeLaws.{array_in-nodes};

    ghost coded = { code_by (List Node) (Prim.hlevel (codes, node.the_row.coded)) array_nodes array_in array_in-nodes };

    ghost view = { λ t. array_in t.nodes.items };

    ghost invariant = { λ t. t.nodes.items ≡ array_nodes (array_in t.nodes.items) };
}

/// A form, which is true or false. It binds no name. Its nodes stand in postfix order. Contracts see it
/// as a tree.
#[derive(Debug)]
pub struct Form {
    nodes: Vec<Node>,
}

// By hand, so that a proof has one step for each that is dropped.
impl Drop for Form {
    fn drop(self) {
        let Form { nodes: _nodes } = self;
    }
}

impl Model for Form {
    ghost use Rattle.terms.specs.Trees.{FormTree};

    ghost Value = { FormTree };

    ghost use Rattle.std.specs.Coded.{code_by, coded_list, codes};
    ghost use Rattle.std.specs.Prelude.{List, ◌≡◌};
    ghost use Rattle.terms.specs.declared.node.Node.{Node};
    ghost use Rattle.terms.specs.contracts.node.Node as node;
    ghost use Rattle.terms.specs.Nodes.{form_nodes, form_in};
    ghost use Rattle.terms.specs.Code.NodeLaws.{form_in-nodes};

    ghost coded = { code_by (List Node) (Prim.hlevel (codes, node.the_row.coded)) form_nodes form_in form_in-nodes };

    ghost view = { λ t. form_in t.nodes.items };

    ghost invariant = { λ t. t.nodes.items ≡ form_nodes (form_in t.nodes.items) };
}

impl Term {
    /// The nodes of the term, in postfix order.
    pub fn nodes(&self) -> &[Node]
        ensures { result.now ≡ term_nodes self.now }
    {
        self.nodes.as_slice()
    }

    /// The term, to be looked at.
    pub fn as_ref(&self) -> TermRef<'_>
        ensures { result ≡ self.now }
    {
        TermRef::of(self.nodes.as_slice())
    }

    /// The term by its outermost operator. It takes no memory.
    pub fn view(&self) -> TermView<'_>
        ensures { viewed_term result ≡ self.now }
    {
        self.as_ref().view()
    }

    /// A copy, since `clone` could not say that it is one.
    pub fn copy(&self, alloc: Global) -> Result<Term, AllocError>
        ensures { IfOk result (λ copy. copy ≡ self.now) }
    {
        Ok(Term {
            nodes: copied(alloc, self.nodes.as_slice())?,
        })
    }

    /// The term of these nodes in postfix order, which are those of one. It takes no memory.
    pub fn from_nodes(nodes: Vec<Node>) -> Term
        requires { nodes.items ≡ term_nodes (term_in nodes.items) }
        ensures { result ≡ term_in nodes.items }
    {
        Term { nodes }
    }

    fn into_nodes(self) -> Vec<Node>
        ensures { result.items ≡ term_nodes self }
    {
        let Term { nodes } = self;
        nodes
    }

    /// A number.
    pub fn number(alloc: Global, value: i128) -> Result<Term, AllocError>
        ensures { IfOk result (λ made. made ≡ number value) }
    {
        Ok(Term {
            nodes: leaf(alloc, NodeKind::Num(value))?,
        })
    }

    /// What a name stands for.
    pub fn name(alloc: Global, symbol: Sym) -> Result<Term, AllocError>
        ensures { IfOk result (λ made. made ≡ name symbol) }
    {
        Ok(Term {
            nodes: leaf(alloc, NodeKind::Of(symbol))?,
        })
    }

    /// A sum. It is want of memory, too, where it would have 2^32 nodes or more.
    pub fn add(left: Term, right: Term) -> Result<Term, AllocError>
        ensures { IfOk result (λ made. made ≡ plus left right) }
    {
        let operands = together(left.into_nodes(), right.into_nodes())?;
        Ok(Term {
            nodes: under(operands, NodeKind::Add)?,
        })
    }

    /// A difference. It is want of memory, too, where it would have 2^32 nodes or more.
    pub fn sub(left: Term, right: Term) -> Result<Term, AllocError>
        ensures { IfOk result (λ made. made ≡ minus left right) }
    {
        let operands = together(left.into_nodes(), right.into_nodes())?;
        Ok(Term {
            nodes: under(operands, NodeKind::Sub)?,
        })
    }

    /// A product. It is want of memory, too, where it would have 2^32 nodes or more.
    pub fn mul(left: Term, right: Term) -> Result<Term, AllocError>
        ensures { IfOk result (λ made. made ≡ times left right) }
    {
        let operands = together(left.into_nodes(), right.into_nodes())?;
        Ok(Term {
            nodes: under(operands, NodeKind::Mul)?,
        })
    }

    /// A quotient. It is want of memory, too, where it would have 2^32 nodes or more.
    pub fn div(left: Term, right: Term) -> Result<Term, AllocError>
        ensures { IfOk result (λ made. made ≡ divided left right) }
    {
        let operands = together(left.into_nodes(), right.into_nodes())?;
        Ok(Term {
            nodes: under(operands, NodeKind::Div)?,
        })
    }

    /// A remainder. It is want of memory, too, where it would have 2^32 nodes or more.
    pub fn rem(left: Term, right: Term) -> Result<Term, AllocError>
        ensures { IfOk result (λ made. made ≡ remainder left right) }
    {
        let operands = together(left.into_nodes(), right.into_nodes())?;
        Ok(Term {
            nodes: under(operands, NodeKind::Rem)?,
        })
    }

    /// An array's element. It is want of memory, too, where it would have 2^32 nodes or more.
    pub fn read(from: ArrayTerm, index: Term) -> Result<Term, AllocError>
        ensures { IfOk result (λ made. made ≡ read from index) }
    {
        let operands = together(from.into_nodes(), index.into_nodes())?;
        Ok(Term {
            nodes: under(operands, NodeKind::Read)?,
        })
    }

    /// 1 where the form is true, else 0. It is want of memory, too, where it would have 2^32 nodes or more.
    pub fn truth(form: Form) -> Result<Term, AllocError>
        ensures { IfOk result (λ made. made ≡ truth form) }
    {
        Ok(Term {
            nodes: under(form.into_nodes(), NodeKind::Truth)?,
        })
    }
}

impl ArrayTerm {
    /// The nodes of the array, in postfix order.
    pub fn nodes(&self) -> &[Node]
        ensures { result.now ≡ array_nodes self.now }
    {
        self.nodes.as_slice()
    }

    /// The array, to be looked at.
    pub fn as_ref(&self) -> ArrayRef<'_>
        ensures { result ≡ self.now }
    {
        ArrayRef::of(self.nodes.as_slice())
    }

    /// The array by its outermost operator. It takes no memory.
    pub fn view(&self) -> ArrayView<'_>
        ensures { viewed_array result ≡ self.now }
    {
        self.as_ref().view()
    }

    /// A copy, since `clone` could not say that it is one.
    pub fn copy(&self, alloc: Global) -> Result<ArrayTerm, AllocError>
        ensures { IfOk result (λ copy. copy ≡ self.now) }
    {
        Ok(ArrayTerm {
            nodes: copied(alloc, self.nodes.as_slice())?,
        })
    }

    /// The array of these nodes in postfix order, which are those of one. It takes no memory.
    pub fn from_nodes(nodes: Vec<Node>) -> ArrayTerm
        requires { nodes.items ≡ array_nodes (array_in nodes.items) }
        ensures { result ≡ array_in nodes.items }
    {
        ArrayTerm { nodes }
    }

    fn into_nodes(self) -> Vec<Node>
        ensures { result.items ≡ array_nodes self }
    {
        let ArrayTerm { nodes } = self;
        nodes
    }

    /// What a name stands for.
    pub fn base(alloc: Global, symbol: Sym) -> Result<ArrayTerm, AllocError>
        ensures { IfOk result (λ made. made ≡ array symbol) }
    {
        Ok(ArrayTerm {
            nodes: leaf(alloc, NodeKind::Base(symbol))?,
        })
    }

    /// An array with a value stored at an index. It is want of memory, too, where it would have 2^32
    /// nodes or more.
    pub fn store(inner: ArrayTerm, index: Term, value: Term) -> Result<ArrayTerm, AllocError>
        ensures { IfOk result (λ made. made ≡ stored inner index value) }
    {
        let front = together(inner.into_nodes(), index.into_nodes())?;
        let operands = together(front, value.into_nodes())?;
        Ok(ArrayTerm {
            nodes: under(operands, NodeKind::Store)?,
        })
    }
}

impl Form {
    /// The nodes of the form, in postfix order.
    pub fn nodes(&self) -> &[Node]
        ensures { result.now ≡ form_nodes self.now }
    {
        self.nodes.as_slice()
    }

    /// The form, to be looked at.
    pub fn as_ref(&self) -> FormRef<'_>
        ensures { result ≡ self.now }
    {
        FormRef::of(self.nodes.as_slice())
    }

    /// The form by its outermost operator. It takes no memory.
    pub fn view(&self) -> FormView<'_>
        ensures { viewed_form result ≡ self.now }
    {
        self.as_ref().view()
    }

    /// A copy, since `clone` could not say that it is one.
    pub fn copy(&self, alloc: Global) -> Result<Form, AllocError>
        ensures { IfOk result (λ copy. copy ≡ self.now) }
    {
        Ok(Form {
            nodes: copied(alloc, self.nodes.as_slice())?,
        })
    }

    /// The form of these nodes in postfix order, which are those of one. It takes no memory.
    pub fn from_nodes(nodes: Vec<Node>) -> Form
        requires { nodes.items ≡ form_nodes (form_in nodes.items) }
        ensures { result ≡ form_in nodes.items }
    {
        Form { nodes }
    }

    fn into_nodes(self) -> Vec<Node>
        ensures { result.items ≡ form_nodes self }
    {
        let Form { nodes } = self;
        nodes
    }

    /// The form that is true.
    pub fn always(alloc: Global) -> Result<Form, AllocError>
        ensures { IfOk result (λ made. made ≡ always) }
    {
        Ok(Form {
            nodes: leaf(alloc, NodeKind::True)?,
        })
    }

    /// The form that is false.
    pub fn never(alloc: Global) -> Result<Form, AllocError>
        ensures { IfOk result (λ made. made ≡ never) }
    {
        Ok(Form {
            nodes: leaf(alloc, NodeKind::False)?,
        })
    }

    /// That one term is worth at most what the other is. It is want of memory, too, where it would have 2^32 nodes or more.
    pub fn at_most(left: Term, right: Term) -> Result<Form, AllocError>
        ensures { IfOk result (λ made. made ≡ at_most left right) }
    {
        let operands = together(left.into_nodes(), right.into_nodes())?;
        Ok(Form {
            nodes: under(operands, NodeKind::Le)?,
        })
    }

    /// That two terms are worth the same. It is want of memory, too, where it would have 2^32 nodes or more.
    pub fn equal(left: Term, right: Term) -> Result<Form, AllocError>
        ensures { IfOk result (λ made. made ≡ equal left right) }
    {
        let operands = together(left.into_nodes(), right.into_nodes())?;
        Ok(Form {
            nodes: under(operands, NodeKind::Eq)?,
        })
    }

    /// That a form is false. It is want of memory, too, where it would have 2^32 nodes or more.
    pub fn denied(form: Form) -> Result<Form, AllocError>
        ensures { IfOk result (λ made. made ≡ denied form) }
    {
        Ok(Form {
            nodes: under(form.into_nodes(), NodeKind::Not)?,
        })
    }

    /// That two forms are true. It is want of memory, too, where it would have 2^32 nodes or more.
    pub fn both(left: Form, right: Form) -> Result<Form, AllocError>
        ensures { IfOk result (λ made. made ≡ both left right) }
    {
        let operands = together(left.into_nodes(), right.into_nodes())?;
        Ok(Form {
            nodes: under(operands, NodeKind::And)?,
        })
    }

    /// That one of two forms is true. It is want of memory, too, where it would have 2^32 nodes or more.
    pub fn either(left: Form, right: Form) -> Result<Form, AllocError>
        ensures { IfOk result (λ made. made ≡ either left right) }
    {
        let operands = together(left.into_nodes(), right.into_nodes())?;
        Ok(Form {
            nodes: under(operands, NodeKind::Or)?,
        })
    }
}
