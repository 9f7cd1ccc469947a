//! The texts of names and numbers.

ghost use Rattle.std.specs.Prelude.{◌≡◌, ◌++◌, ◌||◌, OnOk};
ghost use Rattle.c_lang.specs.Names.{is_word as is_word_text};
ghost use Rattle.std.specs.Fmt.{decimal, signed_decimal};
ghost use Rattle.formula_texts.specs.Written.{base_text, count_text, name_text, is_entry, has_name_text};

use crate::lexer::{NUMBER_LIMIT, is_taken, is_word, number_in};
use c_lang::Name;
use c_lexer::bytes::is_same;
use itoa::Buffer;
use std::alloc::{AllocError, Global};
use terms::Sym;

/// Appends a text.
pub fn put_text(out: &mut Vec<u8>, text: &[u8]) -> Result<(), AllocError>
    ensures { OnOk result (out.new.items ≡ out.old.items ++ text.now) }
{
    out.extend_from_slice(text)
}

/// Appends a number.
pub fn put_number(out: &mut Vec<u8>, number: i128) -> Result<(), AllocError>
    ensures { OnOk result (out.new.items ≡ out.old.items ++ signed_decimal number) }
{
    let mut buffer = Buffer::new();
    put_text(out, buffer.format(number).as_bytes())
}

fn put_natural(out: &mut Vec<u8>, number: u32) -> Result<(), AllocError>
    ensures { OnOk result (out.new.items ≡ out.old.items ++ decimal number) }
{
    let mut buffer = Buffer::new();
    put_text(out, buffer.format(number).as_bytes())
}

fn put_base(out: &mut Vec<u8>, base: &Name) -> Result<(), AllocError>
    ensures { OnOk result (out.new.items ≡ out.old.items ++ base_text base.now) }
{
    if is_taken(base.as_bytes()) {
        put_text(out, b"$")?;
    }
    put_text(out, base.as_bytes())
}

fn put_count(out: &mut Vec<u8>, count: u32) -> Result<(), AllocError>
    ensures { OnOk result (out.new.items ≡ out.old.items ++ count_text count) }
{
    if count == 0 {
        return Ok(());
    }
    put_text(out, b"'")?;
    put_natural(out, count)
}

/// Appends the text of a name. The only error is want of memory; then a part of the text may have
/// been appended.
#[tactic(auto, unfolding(crate::specs::Written::name_text))]
pub fn put_name(out: &mut Vec<u8>, name: &Sym) -> Result<(), AllocError>
    ensures { OnOk result (out.new.items ≡ out.old.items ++ name_text name.now) }
{
    put_base(out, &name.base)?;
    put_count(out, name.count)
}

#[tactic(auto, unfolding(crate::specs::Written::is_entry))]
fn is_entry(base: &[u8]) -> bool
    ensures { result ≡ is_entry base.now }
{
    match base {
        [first, rest @ ..] => {
            *first == b'$' && (is_same(rest, b"r") || number_in(NUMBER_LIMIT, rest).is_some())
        }
        [] => false,
    }
}

/// Whether the name has a text.
#[tactic(auto, unfolding(crate::specs::Written::has_name_text))]
pub fn has_name_text(name: &Sym) -> bool
    ensures { result ≡ has_name_text name.now }
{
    // Each count that a name can have is within the limit.
    has_base_text(&name.base) && name.count <= u32::MAX
}

fn has_base_text(base: &Name) -> bool
    ensures { result ≡ (is_word_text base.now || is_entry base.now) }
{
    is_word(base.as_bytes()) || is_entry(base.as_bytes())
}
