//! A symbol table. A look-up takes the same time however many names there are.

ghost use Rattle.std.specs.Prelude.{◌≡◌, OnOk, OnErr, take, length, []};
ghost use Rattle.std.specs.Option.{option_copied};
ghost use Rattle.c_types.specs.Code.SeenMeans.{seen_means, seen_name};
ghost use Rattle.c_types.specs.Names as spec;

use crate::means::Means;
use c_lang::Name;
use indexmap::IndexMap;
use std::alloc::{AllocError, Global};
use std::marker::Model;

/// Names with what they stand for, in the order of their declarations.
pub struct Symbols {
    table: IndexMap<Name, Means>,
}

// By hand, so that a proof has one step for each table that is dropped.
impl Drop for Symbols {
    fn drop(self) {
        let Symbols { table: _table } = self;
    }
}

impl Model for Symbols {
    ghost use Rattle.std.specs.Prelude.{map};
    ghost use Rattle.c_types.specs.Names.{Entries};
    ghost use Rattle.c_types.specs.Code.SeenMeans.{seen_entry};

    ghost Value = { Entries };

    ghost view = { λ s. map seen_entry s.table.entries };
}

impl Symbols {
    /// A table without names. It takes no memory.
    pub fn new(alloc: Global) -> Symbols
        ensures { result ≡ [] }
    {
        Symbols {
            table: IndexMap::new(alloc),
        }
    }

    /// What the name stands for.
    #[tactic(auto, using(crate::proofs::SymbolLaws::found_seen))]
    pub fn find(&self, name: &Name) -> Option<&Means>
        ensures { seen_name (option_copied result) ≡ spec.found self.now name.now }
    {
        self.table.get(name)
    }

    /// How many names there are.
    #[tactic(auto, using(crate::proofs::SymbolLaws::length_seen))]
    pub fn len(&self) -> usize
        ensures { result ≡ length self.now }
    {
        self.table.len()
    }

    /// Whether the name stands at this place, or behind it.
    #[tactic(auto, using(crate::proofs::SymbolLaws::keys_seen))]
    pub fn stands_from(&self, base: usize, name: &Name) -> bool
        ensures { result ≡ spec.stands_from base self.now name.now }
    {
        match self.table.get_index_of(name) {
            Some(place) => base <= place,
            None => false,
        }
    }

    /// Whether the name stands before this place.
    #[tactic(auto, using(crate::proofs::SymbolLaws::keys_seen))]
    pub fn stands_before(&self, mark: usize, name: &Name) -> bool
        ensures { result ≡ spec.stands_before mark self.now name.now }
    {
        match self.table.get_index_of(name) {
            Some(place) => place < mark,
            None => false,
        }
    }

    /// Adds a name, unless it is there already. The only error is want of memory, and then the table is
    /// as it was.
    pub fn add(&mut self, name: Name, means: Means) -> Result<(), AllocError>
        ensures added { OnOk result (self.new ≡ spec.added self.old name (seen_means means)) }
        ensures as_before { OnErr result (self.new ≡ self.old) }
    {
        if self.table.contains_key(&name) {
            return Ok(());
        }
        match self.table.insert(name, means) {
            Ok(_) => Ok(()),
            Err(_) => Err(AllocError),
        }
    }

    /// Takes away the names from this place on.
    #[tactic(auto, using(crate::proofs::SymbolLaws::take_seen))]
    pub fn truncate(&mut self, base: usize)
        ensures { self.new ≡ take base self.old }
    {
        self.table.truncate(base);
    }
}
