ghost use Rattle.std.specs.Prelude.{◌≡◌, IfOk, OnOk, OnErr, None, Some, if◌then◌else◌};
ghost use Rattle.std.specs.Str.{bytes_eq};
ghost use Rattle.c_lang.specs.Names.{Bytes};
ghost use Rattle.name_tables.specs.Tables.{found};

use c_lang::Name;
use indexmap::IndexMap;
use std::alloc::{AllocError, Global};

/// Values by names, one for each name.
pub struct NameTable<'p, V: Copy> {
    index: IndexMap<&'p Name, V>,
}

// By hand, so that a proof has one step for each table that is dropped.
impl<V: Copy> Drop for NameTable<'_, V> {
    fn drop(self) {
        let NameTable { index: _index } = self;
    }
}

impl<'p, V: Copy> NameTable<'p, V> {
    /// A table without names. It takes no memory.
    pub fn new(alloc: Global) -> NameTable<'p, V>
        ensures { (x : Bytes) → found result x ≡ None }
    {
        NameTable {
            index: IndexMap::new(alloc),
        }
    }

    /// Puts a value under a name, in place of the one that is there. The only error is want of memory, and
    /// then the table is as before.
    pub fn put(&mut self, name: &'p Name, value: V) -> Result<(), AllocError>
        ensures set { OnOk result ((x : Bytes) →
            found self.new x ≡ (if bytes_eq name.entry.now x then Some value else found self.old x)) }
        ensures kept { OnErr result ((x : Bytes) → found self.new x ≡ found self.old x) }
    {
        self.index.insert(name, value)?;
        Ok(())
    }

    /// The name's value. It takes no memory.
    pub fn get(&self, name: &Name) -> Option<V>
        ensures { result ≡ found self.now name.now }
    {
        self.index.get(&name).copied()
    }
}
