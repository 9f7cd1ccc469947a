//! Sets of names.

ghost use Rattle.std.specs.Prelude.{◌≡◌, ◌||◌, OnOk, [], true, false};
ghost use Rattle.std.specs.Str.{bytes_eq};
ghost use Rattle.c_lang.specs.Names.{Bytes};
ghost use Rattle.state_xform.specs.Code.NameSets as spec;

use c_lang::Name;
use indexmap::IndexSet;
use std::alloc::{AllocError, Global};
use std::marker::Model;

/// Names that stand in a program, or every name. A look-up takes the same time however many there
/// are.
#[derive(Drop)]
pub struct NameSet<'p> {
    all: bool,
    listed: IndexSet<&'p Name>,
}

impl<'p> Model for NameSet<'p> {
    ghost use Rattle.std.specs.Prelude.{map};
    ghost use Rattle.state_xform.specs.Code.NameSets.{Names};

    ghost Value = { Names };

    ghost view = { λ s. record { all = s.all; listed = map (λ k. k.now) s.listed.keys } };
}

impl<'p> NameSet<'p> {
    /// No names. It takes no memory.
    pub(crate) fn empty(alloc: Global) -> NameSet<'p>
        ensures { result ≡ record { all = false; listed = [] } }
    {
        NameSet {
            all: false,
            listed: IndexSet::new(alloc),
        }
    }

    /// Every name. It takes no memory.
    pub(crate) fn every(alloc: Global) -> NameSet<'p>
        ensures { result ≡ record { all = true; listed = [] } }
    {
        NameSet {
            all: true,
            listed: IndexSet::new(alloc),
        }
    }

    /// Whether the name is there. It takes no memory.
    pub fn contains(&self, name: &Name) -> bool
        ensures { result ≡ spec.has self.now name.now }
    {
        self.all || self.listed.contains(&name)
    }

    /// Adds a name. The only error is want of memory.
    pub(crate) fn add(&mut self, name: &'p Name) -> Result<(), AllocError>
        ensures { OnOk result ((x : Bytes) → spec.has self.new x ≡ (bytes_eq x name.entry.now || spec.has self.old x)) }
    {
        if !self.all {
            self.listed.insert(name)?;
        }
        Ok(())
    }

    /// Adds the names of another set. The only error is want of memory.
    pub(crate) fn add_all(&mut self, other: &NameSet<'p>) -> Result<(), AllocError>
        ensures { OnOk result (spec.IsUnion other.now self.old self.new) }
    {
        if self.all || other.all {
            self.all = true;
            return Ok(());
        }
        for name in other.listed.as_slice() {
            self.listed.insert(*name)?;
        }
        Ok(())
    }

    /// The names that both sets have. It takes no memory.
    pub(crate) fn common(self, other: NameSet<'p>) -> NameSet<'p>
        ensures { spec.IsCommon self.entry other.entry result }
    {
        if self.all {
            return other;
        }
        if other.all {
            return self;
        }
        let mut listed = self.listed;
        listed.retain(|name| other.contains(name));
        NameSet { all: false, listed }
    }
}
