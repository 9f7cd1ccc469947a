//! The limits on texts, programs and runs. No call takes memory.

ghost use Rattle.std.specs.Prelude.{◌≡◌};
ghost use Rattle.c_lang.specs.Limits as spec;

use crate::Unit;

/// The most elements of an array; the fewest are 1.
pub const ELEMENT_LIMIT: u32 = 65_536;

/// The most parameters of a function or pointer.
pub const PARAMETER_LIMIT: u8 = 32;

/// The most frames of a run.
pub const FRAME_LIMIT: usize = 10_000;

/// The most bytes that the text of a unit may have: 262,144 for a source or hints, 67,108,864 for
/// a merged text or certificates.
pub fn limit_of(unit: Unit) -> usize
    ensures { result ≡ spec.size_limit unit }
{
    match unit {
        Unit::Merge | Unit::Certs => 67_108_864,
        Unit::Old | Unit::New | Unit::Xform | Unit::Client | Unit::Hints => 262_144,
    }
}

/// How high the statements of a unit may be, and how many of its brackets may be open: 72 in a
/// merged text, else 64.
pub fn height_limit(unit: Unit) -> u32
    ensures { result ≡ spec.height_limit unit }
{
    match unit {
        Unit::Merge => 72,
        _ => 64,
    }
}

/// How many cells a unit may have, each element of an array being one: 3,145,728 in a merged text,
/// else 1,048,576.
pub fn cell_limit(unit: Unit) -> u32
    ensures { result ≡ spec.cell_limit unit }
{
    match unit {
        Unit::Merge => 3_145_728,
        _ => 1_048_576,
    }
}
