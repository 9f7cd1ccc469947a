//! Names with the place where they stand.

ghost use Rattle.std.specs.Prelude.{◌≡◌};
ghost use Rattle.version_names.specs.Home.{same_linked};
ghost use Rattle.update_semantics.specs.Linked.{home_at, function_at};
ghost use Rattle.version_names.specs.Home.{same_home};

use version_names::Part;

/// A cell, or a function of a version: its name with the part in which the name stands, or none where
/// the version lacks it.
#[derive(Clone, Copy, Debug)]
pub struct Linked<'p> {
    pub part: Option<Part>,
    pub name: &'p [u8],
}

/// A function as a value.
#[derive(Clone, Copy, Debug)]
pub enum Function<'p> {
    Version(Linked<'p>),
    /// One of the transformer's own.
    Xform(&'p [u8]),
    /// One of the client's own.
    Client(&'p [u8]),
}

/// Where the body of a frame was written.
#[derive(Clone, Copy, Debug, PartialEq, Eq)]
pub enum Provenance {
    Old,
    New,
    Xform,
    Client,
}

fn same_part(a: Option<Part>, b: Option<Part>) -> bool
    ensures { result ≡ same_home (home_at a) (home_at b) }
{
    a == b
}

impl Function<'_> {
    /// Whether both are the same function. It takes no memory.
    pub fn same(self, other: Function<'_>) -> bool
        ensures { result ≡ same_linked (function_at self.entry) (function_at other.entry) }
    {
        match (self, other) {
            (Function::Version(a), Function::Version(b)) => {
                same_part(a.part, b.part) && a.name == b.name
            }
            (Function::Xform(a), Function::Xform(b)) | (Function::Client(a), Function::Client(b)) =>
                a == b,
            (Function::Version(_), Function::Xform(_) | Function::Client(_))
            | (Function::Xform(_), Function::Version(_) | Function::Client(_))
            | (Function::Client(_), Function::Version(_) | Function::Xform(_)) => false,
        }
    }
}
