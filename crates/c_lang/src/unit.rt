ghost use Rattle.std.specs.Prelude.{◌≡◌, Some};
ghost use Rattle.c_lang.specs.Units.{word};

use std::fmt;

/// The text that something stands in: one of the two versions, the transformer, the client, the
/// merged program, the hints or the certificates.
#[derive(Clone, Copy, Debug, PartialEq, Eq)]
pub enum Unit {
    Old,
    New,
    Xform,
    Client,
    Merge,
    Hints,
    Certs,
}

impl Unit {
    /// The unit's word in printed lines and in `#line` directives.
    pub fn as_str(self) -> &'static str
        ensures { result.now ≡ word self }
    {
        match self {
            Unit::Old => "old",
            Unit::New => "new",
            Unit::Xform => "xform",
            Unit::Client => "client",
            Unit::Merge => "merge",
            Unit::Hints => "hints",
            Unit::Certs => "certs",
        }
    }
}

impl fmt::Display for Unit {
    ghost output = { λ unit. Some (word unit) };

    fn fmt<W: fmt::Write>(&self, f: &mut fmt::Formatter<W>) -> fmt::Result {
        f.write_str(self.as_str())
    }
}

/// A line of a unit. Lines count from 1.
#[derive(Clone, Copy, Debug, PartialEq, Eq)]
pub struct Pos {
    pub unit: Unit,
    pub line: u32,
}
