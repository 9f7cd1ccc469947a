ghost use Rattle.std.specs.Prelude.{◌≡◌, List, ℕ, IfOk};
ghost use Rattle.std.specs.Str.{bytes_eq};
ghost use Rattle.std.proofs.Common.{rules};
ghost use Rattle.std.specs.Hash as fed;
ghost use Rattle.std.specs.Cmp.Rules.{comparing, hashing};

use smallvec::SmallVec;
use std::alloc::{AllocError, Global};
use std::hash::{Hash, Hasher};
use std::marker::Model;

/// An identifier, which contracts see as the list of its bytes. Short ones take no memory of their own.
#[derive(Debug)]
pub struct Name {
    bytes: SmallVec<u8, 24>,
}

// By hand, so that a proof has one step for each name that is dropped.
impl Drop for Name {
    fn drop(self) {
        let Name { bytes: _bytes } = self;
    }
}

impl Model for Name {
    ghost Value = { List ℕ };

    ghost view = { λ n. n.bytes.items };
}

impl PartialEq for Name {
    ghost eq = { bytes_eq };

    ghost laws = { Prim.search (comparing, rules) };

    fn eq(&self, other: &Name) -> bool {
        self.as_bytes() == other.as_bytes()
    }
}

impl Eq for Name {
    ghost laws = { Prim.search (comparing, rules) };
}

impl Hash for Name {
    ghost hash_input = { fed.slice fed.u8 };

    ghost respects_eq = { Prim.search (hashing, rules) };

    fn hash<H: Hasher>(&self, state: &mut H) {
        self.as_bytes().hash(state);
    }
}

impl Name {
    /// The name with these bytes, which are copied.
    pub fn new(alloc: Global, bytes: &[u8]) -> Result<Name, AllocError>
        ensures { IfOk result (λ name. name ≡ bytes.now) }
    {
        Ok(Name {
            bytes: SmallVec::from_slice(alloc, bytes)?,
        })
    }

    /// The name with these bytes. It takes no memory.
    pub fn from_vec(bytes: Vec<u8>) -> Name
        ensures { result ≡ bytes.items }
    {
        Name {
            bytes: SmallVec::from_vec(bytes),
        }
    }

    /// The bytes of the name.
    pub fn as_bytes(&self) -> &[u8]
        ensures { result.now ≡ self.now }
    {
        self.bytes.as_slice()
    }

    /// A copy, since `clone` could not say that it is one.
    pub fn copy(&self, alloc: Global) -> Result<Name, AllocError>
        ensures { IfOk result (λ name. name ≡ self.now) }
    {
        Name::new(alloc, self.as_bytes())
    }
}
