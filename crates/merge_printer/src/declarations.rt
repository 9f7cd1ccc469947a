//! Declarations, and what stands before a right side.

ghost use Rattle.std.specs.Prelude.{◌≡◌, ◌++◌, ◌-◌, OnOk};
ghost use Rattle.merge_printer.specs.Statements as spec;

use crate::text::put_text;
use c_lang::{Dest, Kind};
use std::alloc::AllocError;

// So many parameters of kind `int`.
fn put_ints(out: &mut Vec<u8>, count: u8) -> Result<(), AllocError>
    ensures { OnOk result (out.new.items ≡ out.old.items ++ spec.ints count) }
{
    if count == 0 {
        return put_text(out, b"void");
    }
    put_text(out, b"int")?;
    put_more_ints(out, count - 1)
}

fn put_more_ints(out: &mut Vec<u8>, count: u8) -> Result<(), AllocError>
    ensures { OnOk result (out.new.items ≡ out.old.items ++ spec.more_ints count) }
{
    let mut left = count;
    while left > 0 {
        put_text(out, b", int")?;
        left -= 1;
    }
    Ok(())
}

// A name declared with its kind.
pub(crate) fn put_declaration(out: &mut Vec<u8>, kind: Kind, name: &[u8]) -> Result<(), AllocError>
    ensures { OnOk result (out.new.items ≡ out.old.items ++ spec.declaration kind name.now) }
{
    match kind {
        Kind::Int => {
            put_text(out, b"int ")?;
            put_text(out, name)
        }
        Kind::Fp(arity) => {
            put_text(out, b"int (*")?;
            put_text(out, name)?;
            put_text(out, b")(")?;
            put_ints(out, arity)?;
            put_text(out, b")")
        }
    }
}

// What stands before a right side.
pub(crate) fn put_target(out: &mut Vec<u8>, dest: &Dest) -> Result<(), AllocError>
    ensures { OnOk result (out.new.items ≡ out.old.items ++ spec.target dest.now) }
{
    match dest {
        Dest::Nowhere => Ok(()),
        Dest::Into(name) => {
            put_text(out, name.as_bytes())?;
            put_text(out, b" = ")
        }
        Dest::Fresh(kind, name) => {
            put_declaration(out, *kind, name.as_bytes())?;
            put_text(out, b" = ")
        }
    }
}
