//! Which formulas are the same as written.
ghost use Rattle.std.specs.Prelude.{◌≡◌, ◌&&◌, nat_eq};
ghost use Rattle.std.specs.Option.{option_copied};
ghost use Rattle.terms.specs.Equality.{ordinal, number_in, symbol_in, same_numbers, same_symbols};

use crate::node::{Node, NodeKind};
use crate::{ArrayTerm, Fact, Form, Sym, Term};

impl NodeKind {
    #[tactic(auto, unfolding(crate::specs::Equality::ordinal))]
    fn ordinal(&self) -> u8
        ensures { result ≡ ordinal self.now }
    {
        match self {
            NodeKind::Num(_) => 0,
            NodeKind::Of(_) => 1,
            NodeKind::Add => 2,
            NodeKind::Sub => 3,
            NodeKind::Mul => 4,
            NodeKind::Div => 5,
            NodeKind::Rem => 6,
            NodeKind::Read => 7,
            NodeKind::Truth => 8,
            NodeKind::Base(_) => 9,
            NodeKind::Store => 10,
            NodeKind::True => 11,
            NodeKind::False => 12,
            NodeKind::Le => 13,
            NodeKind::Eq => 14,
            NodeKind::Not => 15,
            NodeKind::And => 16,
            NodeKind::Or => 17,
        }
    }

    /// The number that the node keeps.
    #[tactic(auto, unfolding(crate::specs::Equality::number_in))]
    fn number(&self) -> Option<i128>
        ensures { result ≡ number_in self.now }
    {
        match self {
            NodeKind::Num(number) => Some(*number),
            NodeKind::Of(_)
            | NodeKind::Base(_)
            | NodeKind::Add
            | NodeKind::Sub
            | NodeKind::Mul
            | NodeKind::Div
            | NodeKind::Rem
            | NodeKind::Read
            | NodeKind::Truth
            | NodeKind::Store
            | NodeKind::True
            | NodeKind::False
            | NodeKind::Le
            | NodeKind::Eq
            | NodeKind::Not
            | NodeKind::And
            | NodeKind::Or => None,
        }
    }

    /// The name that the node keeps.
    #[tactic(auto, unfolding(crate::specs::Equality::symbol_in))]
    fn symbol(&self) -> Option<&Sym>
        ensures { option_copied result ≡ symbol_in self.now }
    {
        match self {
            NodeKind::Of(name) | NodeKind::Base(name) => Some(name),
            NodeKind::Num(_)
            | NodeKind::Add
            | NodeKind::Sub
            | NodeKind::Mul
            | NodeKind::Div
            | NodeKind::Rem
            | NodeKind::Read
            | NodeKind::Truth
            | NodeKind::Store
            | NodeKind::True
            | NodeKind::False
            | NodeKind::Le
            | NodeKind::Eq
            | NodeKind::Not
            | NodeKind::And
            | NodeKind::Or => None,
        }
    }
}

#[tactic(auto, unfolding(crate::specs::Equality::same_numbers))]
fn same_numbers(left: Option<i128>, right: Option<i128>) -> bool
    ensures { result ≡ same_numbers left right }
{
    match left {
        None => right.is_none(),
        Some(number) => match right {
            None => false,
            Some(other) => number == other,
        },
    }
}

#[tactic(auto, unfolding(crate::specs::Equality::same_symbols))]
fn same_symbols(left: Option<&Sym>, right: Option<&Sym>) -> bool
    ensures { result ≡ same_symbols (option_copied left.entry) (option_copied right.entry) }
{
    match left {
        None => right.is_none(),
        Some(name) => match right {
            None => false,
            Some(other) => name == other,
        },
    }
}

fn same_shape(left: &Node, right: &Node) -> bool
    ensures { result ≡ (nat_eq (ordinal left.now.kind) (ordinal right.now.kind)
        && nat_eq left.now.size right.now.size) }
{
    left.kind.ordinal() == right.kind.ordinal() && left.size == right.size
}

fn same_kept(left: &NodeKind, right: &NodeKind) -> bool
    ensures { result ≡ (same_numbers (number_in left.now) (number_in right.now)
        && same_symbols (symbol_in left.now) (symbol_in right.now)) }
{
    same_numbers(left.number(), right.number()) && same_symbols(left.symbol(), right.symbol())
}

impl PartialEq for Node {
    ghost use Rattle.terms.specs.Equality.{same_node};

    ghost eq = { same_node };

    ghost use Rattle.terms.specs.Code.EqualityLaws.{is_partial_equivalence, is_equivalence, same_node-equal, same_node-refl};

    ghost laws = { is_partial_equivalence same_node same_node-equal same_node-refl };

    #[tactic(auto, unfolding(crate::specs::Equality::same_node))]
    fn eq(&self, other: &Node) -> bool {
        same_shape(self, other) && same_kept(&self.kind, &other.kind)
    }
}

impl Eq for Node {
    ghost use Rattle.terms.specs.Equality.{same_node};
    ghost use Rattle.terms.specs.Code.EqualityLaws.{is_equivalence, same_node-equal, same_node-refl};

    ghost laws = { is_equivalence same_node same_node-equal same_node-refl };
}

impl PartialEq for Term {
    ghost use Rattle.terms.specs.Equality.{same_term};

    ghost eq = { same_term };

    ghost use Rattle.terms.specs.Code.EqualityLaws.{is_partial_equivalence, same_term-equal, same_term-refl};

    ghost laws = { is_partial_equivalence same_term same_term-equal same_term-refl };

    fn eq(&self, other: &Term) -> bool {
        self.nodes() == other.nodes()
    }
}

impl Eq for Term {
    ghost use Rattle.terms.specs.Equality.{same_term};
    ghost use Rattle.terms.specs.Code.EqualityLaws.{is_equivalence, same_term-equal, same_term-refl};

    ghost laws = { is_equivalence same_term same_term-equal same_term-refl };
}

impl PartialEq for ArrayTerm {
    ghost use Rattle.terms.specs.Equality.{same_array};

    ghost eq = { same_array };

    ghost use Rattle.terms.specs.Code.EqualityLaws.{is_partial_equivalence, same_array-equal, same_array-refl};

    ghost laws = { is_partial_equivalence same_array same_array-equal same_array-refl };

    fn eq(&self, other: &ArrayTerm) -> bool {
        self.nodes() == other.nodes()
    }
}

impl Eq for ArrayTerm {
    ghost use Rattle.terms.specs.Equality.{same_array};
    ghost use Rattle.terms.specs.Code.EqualityLaws.{is_equivalence, same_array-equal, same_array-refl};

    ghost laws = { is_equivalence same_array same_array-equal same_array-refl };
}

impl PartialEq for Form {
    ghost use Rattle.terms.specs.Equality.{same_form};

    ghost eq = { same_form };

    ghost use Rattle.terms.specs.Code.EqualityLaws.{is_partial_equivalence, same_form-equal, same_form-refl};

    ghost laws = { is_partial_equivalence same_form same_form-equal same_form-refl };

    fn eq(&self, other: &Form) -> bool {
        self.nodes() == other.nodes()
    }
}

impl Eq for Form {
    ghost use Rattle.terms.specs.Equality.{same_form};
    ghost use Rattle.terms.specs.Code.EqualityLaws.{is_equivalence, same_form-equal, same_form-refl};

    ghost laws = { is_equivalence same_form same_form-equal same_form-refl };
}

impl PartialEq for Fact {
    ghost use Rattle.terms.specs.Equality.{same_fact};

    ghost eq = { same_fact };

    ghost use Rattle.terms.specs.Code.EqualityLaws.{is_partial_equivalence, same_fact-equal, same_fact-refl};

    ghost laws = { is_partial_equivalence same_fact same_fact-equal same_fact-refl };

    fn eq(&self, other: &Fact) -> bool {
        match self {
            Fact::Plain(form) => match other {
                Fact::Plain(same) => form == same,
                Fact::All { .. } => false,
            },
            Fact::All { var, lo, hi, body } => match other {
                Fact::Plain(_) => false,
                Fact::All {
                    var: name,
                    lo: low,
                    hi: high,
                    body: same,
                } => var == name && (lo == low && (hi == high && body == same)),
            },
        }
    }
}

impl Eq for Fact {
    ghost use Rattle.terms.specs.Equality.{same_fact};
    ghost use Rattle.terms.specs.Code.EqualityLaws.{is_equivalence, same_fact-equal, same_fact-refl};

    ghost laws = { is_equivalence same_fact same_fact-equal same_fact-refl };
}
