//! Tables of names. A look-up takes the same time however many names there are.

ghost use Rattle.std.specs.Prelude.{◌≡◌, OnOk, []};
ghost use Rattle.std.specs.Option.{option_copied};
ghost use Rattle.version_names.specs.Code.Tables as spec;

use c_lang::Name;
use indexmap::IndexMap;
use std::alloc::{AllocError, Global};
use std::marker::Model;

/// Names with what is known of them, in the order in which they were added.
#[derive(Drop)]
pub struct Table<T> {
    map: IndexMap<Name, T>,
}

impl<T> Model for Table<T> {
    ghost use Rattle.std.specs.Prelude.{List, ℕ};
    ghost use Rattle.std.specs.Coded.{coded_list, coded×, coded_ℕ};

    ghost Value = { List (List ℕ × T) };

    ghost coded = { coded_list (coded× (coded_list coded_ℕ) T.code) };

    ghost view = { λ t. t.map.entries };
}

impl<T: Drop> Table<T> {
    /// No names. It takes no memory.
    pub fn new(alloc: Global) -> Table<T>
        ensures { result ≡ [] }
    {
        Table {
            map: IndexMap::new(alloc),
        }
    }

    /// What is known of the name. It takes no memory.
    pub fn find(&self, name: &Name) -> Option<&T>
        ensures { option_copied result ≡ spec.found self.now name.now }
    {
        self.map.get(name)
    }

    /// Adds a name, unless it is there already. The only error is want of memory.
    pub fn add(&mut self, name: Name, value: T) -> Result<(), AllocError>
        ensures { OnOk result (self.new ≡ spec.added self.old name value) }
    {
        if self.map.contains_key(&name) {
            return Ok(());
        }
        match self.map.insert(name, value) {
            Ok(_) => Ok(()),
            Err(_) => Err(AllocError),
        }
    }
}
