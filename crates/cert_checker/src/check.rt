//! Whether a certificate checks.
ghost use Rattle.std.specs.Prelude.{◌≡◌, ◌↔◌, [], ◌∷◌, length, reverse, true, IfOk};
ghost use Rattle.terms.specs.Validity.{Valid};
ghost use Rattle.cert_checker.specs.Checks.{checks, has_fresh_name, checks_sequent, Checks};
ghost use Rattle.cert_checker.specs.Code.Branches.{seen_branches, AreShared, IsStepDone};

use crate::branch::{Branch, put_children, take_up};
use crate::child::children;
use crate::start::{fresh, opening};
use cert_form::{Cert, Rule};
use std::alloc::{AllocError, Global};
use terms::{Fact, Sequent, Sort, Sym};

/// Does a rule on the next open branch. It is false where the rule doesn't apply, or no branch is open.
fn do_rule(
    alloc: Global,
    sorts: &[(Sym, Sort)],
    rule: &Rule,
    facts: &mut Vec<Fact>,
    waiting: &mut Vec<Branch>,
) -> Result<bool, AllocError>
    requires { AreShared (length facts.old.items) (seen_branches (reverse waiting.old.items)) }
    ensures { IsStepDone sorts.now rule.now facts.old.items (seen_branches (reverse waiting.old.items)) result
        facts.new.items (seen_branches (reverse waiting.new.items)) }
{
    let Some(branch) = waiting.pop() else {
        return Ok(false);
    };
    take_up(facts, branch)?;
    let Some(made) = children(alloc, sorts, facts.as_slice(), rule)? else {
        return Ok(false);
    };
    put_children(waiting, facts.len(), made)?;
    Ok(true)
}

/// Whether the rules check from the one branch.
fn check_rules(
    alloc: Global,
    sorts: &[(Sym, Sort)],
    rules: &[Rule],
    start: Vec<Fact>,
) -> Result<bool, AllocError>
    ensures { IfOk result (λ yes. yes ≡ checks sorts.now rules.now (start.items ∷ [])) }
{
    let mut facts = Vec::new(alloc);
    let mut waiting = Vec::new(alloc);
    waiting.push(Branch {
        shared: 0,
        added: start,
    })?;
    for rule in rules {
        if !do_rule(alloc, sorts, rule, &mut facts, &mut waiting)? {
            return Ok(false);
        }
    }
    Ok(waiting.is_empty())
}

fn has_fresh_name(alloc: Global, sequent: &Sequent) -> Result<bool, AllocError>
    ensures { IfOk result (λ yes. yes ≡ has_fresh_name sequent.now sequent.now.goal) }
{
    match &sequent.goal {
        Fact::Plain(_) => Ok(true),
        Fact::All { .. } => Ok(!sequent.mentions(&fresh(alloc)?)),
    }
}

fn checks_all(alloc: Global, sequent: &Sequent, cert: &Cert) -> Result<bool, AllocError>
    ensures { IfOk result (λ yes. yes ≡ checks_sequent sequent.now cert.now.rules) }
{
    if !has_fresh_name(alloc, sequent)? {
        return Ok(false);
    }
    let start = opening(alloc, sequent)?;
    check_rules(
        alloc,
        sequent.sorts.as_slice(),
        cert.rules.as_slice(),
        start,
    )
}

/// Whether the certificate checks: every rule applies, every branch ends in one that closes it, and no
/// rule is left. Where it does, the sequent is valid. The rules that read arrays, take an instance of
/// a range, or give the range of an element don't apply.
pub fn check_cert(alloc: Global, sequent: &Sequent, cert: &Cert) -> Result<bool, AllocError>
    ensures exact { IfOk result (λ yes. (yes ≡ true) ↔ Checks sequent.now cert.now) }
    ensures valid { IfOk result (λ yes. yes ≡ true → Valid sequent.now) }
{
    checks_all(alloc, sequent, cert)
}
