//! The open branches of a certificate that is checked.
ghost use Rattle.std.specs.Prelude.{◌≡◌, ◌≤◌, ◌++◌, length, take, reverse, map, OnOk};
ghost use Rattle.cert_checker.specs.Code.Made.{seen};
ghost use Rattle.cert_checker.specs.Code.Branches.{seen_branches, with_shared};

use std::alloc::AllocError;
use terms::Fact;

/// An open branch: its first facts are those that it shares with the branch at work.
#[derive(Debug, Drop)]
pub(crate) struct Branch {
    pub(crate) shared: usize,
    pub(crate) added: Vec<Fact>,
}

/// The facts of a branch, in place of those at work.
pub(crate) fn take_up(facts: &mut Vec<Fact>, branch: Branch) -> Result<(), AllocError>
    requires { branch.shared ≤ length facts.old.items }
    ensures { OnOk result (facts.new.items ≡ take branch.shared facts.old.items ++ branch.added.items) }
{
    facts.truncate(branch.shared);
    let mut added = branch.added;
    facts.append(&mut added)
}

/// The children of the branch at work, before the other branches.
pub(crate) fn put_children(
    waiting: &mut Vec<Branch>,
    shared: usize,
    mut made: Vec<Vec<Fact>>,
) -> Result<(), AllocError>
    ensures { OnOk result (seen_branches (reverse waiting.new.items)
        ≡ with_shared shared (seen made) ++ seen_branches (reverse waiting.old.items)) }
{
    while let Some(added) = made.pop() {
        waiting.push(Branch { shared, added })?;
    }
    Ok(())
}
