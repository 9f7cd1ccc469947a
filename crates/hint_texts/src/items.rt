//! Puts clauses under the items that they belong to.

ghost use Rattle.std.specs.Prelude.{◌≡◌, ◌++◌, ◌∷◌, [], ◌<◌, ◌^◌, IfOk, IfErr, OnOk};
ghost use Rattle.std.specs.List.{list_all};
ghost use Rattle.hint_texts.specs.declared.hints.Statement.TheVariants.{Says};
ghost use Rattle.name_tables.specs.Declarations.{function_number};
ghost use Rattle.hint_texts.specs.Code.Runs.{Gives as Reads};
ghost use Rattle.hint_texts.specs.Code.Reading as spec;
ghost use Rattle.hint_texts.specs.Texts as texts;

use crate::fault::Fault;
use crate::hints::{Clause, ClauseKind, Head, Item, Statement};
use crate::statement::statement_on;
use crate::token::{Kind, Token};
use formula_texts::token::{Mark, Token as FormulaToken};
use name_tables::ProgramNames;
use sqlite_items::Items;
use std::alloc::{AllocError, Global};

/// How many brackets may be open at once.
const BRACKET_LIMIT: usize = 64;

fn begin(alloc: Global, items: &mut Items<Item>, line: u32, head: Head) -> Result<(), AllocError>
    ensures { OnOk result (items.new ≡ items.old ++ spec.begun line head ∷ []) }
{
    Ok(items.push(Item {
        head,
        line,
        clauses: Items::new(alloc),
    })?)
}

/// The item with a clause more.
fn with_clause(item: Item, clause: Clause) -> Result<Item, AllocError>
    ensures { IfOk result (λ made. made ≡ spec.with_clause item clause) }
{
    let mut item = item;
    item.clauses.push(clause)?;
    Ok(item)
}

/// Adds a clause to the last item, if there is one.
#[tactic(auto, using(crate::proofs::ItemLaws::clause_added))]
fn say(items: &mut Items<Item>, clause: Clause) -> Result<(), Fault>
    ensures added { OnOk result (spec.statements_in items.new ≡ spec.statements_in items.old ++ Says clause ∷ []) }
    ensures alone { IfErr result (spec.IsAlone items.old) }
{
    match items.pop() {
        Some(item) => Ok(items.push(with_clause(item, clause)?)?),
        None => Err(Fault::NoText(clause.line)),
    }
}

/// Adds what was read.
#[tactic(auto, using(crate::proofs::ItemLaws::begin_added))]
fn add(alloc: Global, items: &mut Items<Item>, statement: Statement) -> Result<(), Fault>
    ensures added { OnOk result (spec.statements_in items.new ≡ spec.statements_in items.old ++ statement ∷ []) }
    ensures alone { IfErr result (spec.CannotStand items.old statement) }
{
    match statement {
        Statement::Begins(line, head) => Ok(begin(alloc, items, line, head)?),
        Statement::Says(clause) => say(items, clause),
    }
}

/// The items that the tokens are.
pub fn items(
    alloc: Global,
    names: &ProgramNames<'_>,
    tokens: &[Token],
) -> Result<Items<Item>, Fault>
    ensures { Reads (λ items. items) result (spec.items_of (function_number names.now) tokens.now) }
{
    let mut items = Items::new(alloc);
    let mut rest = tokens;
    while !rest.is_empty() {
        let (statement, after) = statement_on(alloc, names, rest[0].line, rest)?;
        add(alloc, &mut items, statement)?;
        rest = after;
    }
    Ok(items)
}

fn is_loop(head: &Head) -> bool
    ensures { result ≡ texts.is_loop head.now }
{
    match head {
        Head::Loop(_, _) => true,
        Head::Both(_) | Head::At(_) => false,
    }
}

fn is_invariant(kind: &ClauseKind) -> bool
    ensures { result ≡ texts.is_invariant kind.now }
{
    match kind {
        ClauseKind::Invariant(_) => true,
        ClauseKind::Requires(_) | ClauseKind::Ensures(_) | ClauseKind::Assigns(_) => false,
    }
}

fn is_assigns(kind: &ClauseKind) -> bool
    ensures { result ≡ texts.is_assigns kind.now }
{
    match kind {
        ClauseKind::Assigns(_) => true,
        ClauseKind::Requires(_) | ClauseKind::Ensures(_) | ClauseKind::Invariant(_) => false,
    }
}

fn may_say(head: &Head, clause: &Clause) -> bool
    ensures { result ≡ texts.may_say head.now clause.now }
{
    is_loop(head) == is_invariant(&clause.kind)
}

fn no_assigns(clauses: &[Clause]) -> bool
    ensures { result ≡ texts.no_assigns clauses.now }
{
    clauses.iter().all(|clause| !is_assigns(&clause.kind))
}

fn assigns_once(clauses: &[Clause]) -> bool
    ensures { result ≡ texts.assigns_once clauses.now }
{
    let mut rest = clauses;
    while let [first, more @ ..] = rest {
        if is_assigns(&first.kind) {
            return no_assigns(more);
        }
        rest = more;
    }
    true
}

fn all_may_stand(head: &Head, clauses: &[Clause]) -> bool
    ensures { result ≡ list_all (texts.may_say head.now) clauses.now }
{
    clauses.iter().all(|clause| may_say(head, clause))
}

/// Whether the clauses of an item may stand in it.
fn is_item(item: &Item) -> bool
    ensures { result ≡ texts.is_item item.now }
{
    let clauses = item.clauses.as_slice();
    all_may_stand(&item.head, clauses) && assigns_once(clauses)
}

/// Whether the clauses of all items may stand in them.
pub fn are_items(items: &[Item]) -> bool
    ensures { result ≡ list_all texts.is_item items.now }
{
    items.iter().all(|item| is_item(item))
}

fn open_by(mark: Mark, before: usize) -> usize
    requires { before < 2 ^ 32 }
    ensures { result ≡ texts.open_by mark before }
{
    match mark {
        Mark::RoundOpen | Mark::SquareOpen => before + 1,
        Mark::RoundClose | Mark::SquareClose => before.saturating_sub(1),
        Mark::Comma | Mark::Slash | Mark::Percent => before,
    }
}

fn open_after(kind: &Kind, before: usize) -> usize
    requires { before < 2 ^ 32 }
    ensures { result ≡ texts.open_after kind.now before }
{
    match kind {
        Kind::Part(FormulaToken::Mark(mark)) => open_by(*mark, before),
        Kind::Part(_) | Kind::Name(_) | Kind::Cell(_) | Kind::Function | Kind::Closing(_) => before,
    }
}

/// Whether no more brackets are open at any token than may be.
pub fn is_nested(tokens: &[Token]) -> bool
    ensures { result ≡ texts.is_nested 0 tokens.now }
{
    let mut count = 0;
    for token in tokens {
        count = open_after(&token.kind, count);
        if count > BRACKET_LIMIT {
            return false;
        }
    }
    true
}
