//! What all texts are made of: pieces of text, numbers and positions.

ghost use Rattle.std.specs.Prelude.{◌≡◌, ◌++◌, OnOk};
ghost use Rattle.std.specs.Fmt.{decimal, signed_decimal};
ghost use Rattle.merge_printer.specs.Statements.{position_text};

use c_lang::Pos;
use itoa::Buffer;
use std::alloc::AllocError;

pub(crate) fn put_text(out: &mut Vec<u8>, text: &[u8]) -> Result<(), AllocError>
    ensures { OnOk result (out.new.items ≡ out.old.items ++ text.now) }
{
    out.extend_from_slice(text)
}

pub(crate) fn put_number(out: &mut Vec<u8>, number: u32) -> Result<(), AllocError>
    ensures { OnOk result (out.new.items ≡ out.old.items ++ decimal number) }
{
    let mut buffer = Buffer::new();
    put_text(out, buffer.format(number).as_bytes())
}

pub(crate) fn put_length(out: &mut Vec<u8>, number: usize) -> Result<(), AllocError>
    ensures { OnOk result (out.new.items ≡ out.old.items ++ decimal number) }
{
    let mut buffer = Buffer::new();
    put_text(out, buffer.format(number).as_bytes())
}

pub(crate) fn put_signed(out: &mut Vec<u8>, number: i32) -> Result<(), AllocError>
    ensures { OnOk result (out.new.items ≡ out.old.items ++ signed_decimal number) }
{
    let mut buffer = Buffer::new();
    put_text(out, buffer.format(number).as_bytes())
}

// The line that gives the next line's position.
#[tactic(auto, unfolding(crate::specs::Statements::position_text))]
pub(crate) fn put_position(out: &mut Vec<u8>, pos: Pos) -> Result<(), AllocError>
    ensures { OnOk result (out.new.items ≡ out.old.items ++ position_text pos) }
{
    put_text(out, b"#line ")?;
    put_number(out, pos.line)?;
    put_text(out, b" \"")?;
    put_text(out, pos.unit.as_str().as_bytes())?;
    put_text(out, b"\"\n")
}
