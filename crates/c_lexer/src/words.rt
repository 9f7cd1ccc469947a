//! Keywords and reserved words.

ghost use Rattle.std.specs.Prelude.{◌≡◌, ◌<◌, [], map, length, get_or};
ghost use Rattle.std.specs.Ordering.{nat_cmp};
ghost use Rattle.std.specs.Cmp.Lexicographic.{slice_cmp};
ghost use Rattle.c_grammar.specs.Words as spec;

use crate::bytes::is_same;
use c_lang::Unit;
use std::cmp::Ordering;

/// The words that are no identifiers, in the order of their bytes.
pub const KEYWORDS: [&[u8]; 51] = [
    b"_Alignas",
    b"_Alignof",
    b"_Atomic",
    b"_Bool",
    b"_Complex",
    b"_Generic",
    b"_Imaginary",
    b"_Noreturn",
    b"_Static_assert",
    b"_Thread_local",
    b"assert",
    b"auto",
    b"break",
    b"case",
    b"char",
    b"client_in",
    b"client_out",
    b"const",
    b"continue",
    b"default",
    b"do",
    b"double",
    b"dsu_choice",
    b"dsu_force",
    b"dsu_update",
    b"dsu_updated",
    b"else",
    b"enum",
    b"extern",
    b"float",
    b"for",
    b"goto",
    b"if",
    b"inline",
    b"int",
    b"long",
    b"register",
    b"restrict",
    b"return",
    b"short",
    b"signed",
    b"sizeof",
    b"static",
    b"struct",
    b"switch",
    b"typedef",
    b"union",
    b"unsigned",
    b"void",
    b"volatile",
    b"while",
];

fn entry_at<'a>(table: &[&'a [u8]], place: usize) -> &'a [u8]
    requires { place < length table.now }
    ensures { result.now ≡ get_or (map (λ entry. entry.now) table.now) place [] }
{
    table[place]
}

/// How two words stand in the order of their bytes.
fn order_of(word: &[u8], other: &[u8]) -> Ordering
    ensures { result ≡ slice_cmp nat_cmp word.now other.now }
{
    word.cmp(other)
}

/// The number of a keyword, which is its place in the table.
pub fn keyword_number(word: &[u8]) -> Option<u8>
    ensures { result ≡ spec.keyword_number word.now }
{
    let mut low = 0;
    let mut high = KEYWORDS.len();
    while low < high {
        let middle = low + (high - low) / 2;
        match order_of(word, entry_at(&KEYWORDS, middle)) {
            Ordering::Less => high = middle,
            Ordering::Equal => return Some(middle as u8),
            Ordering::Greater => low = middle + 1,
        }
    }
    None
}

#[tactic(auto, unfolding(c_grammar::specs::Words::is_allowed))]
fn is_allowed(unit: Unit, word: &[u8]) -> bool
    ensures { result ≡ spec.is_allowed unit word.now }
{
    match unit {
        Unit::Merge => true,
        Unit::Old | Unit::New => is_same(word, b"dsu_update"),
        Unit::Client => {
            is_same(word, b"dsu_update")
                || is_same(word, b"dsu_force")
                || is_same(word, b"dsu_updated")
        }
        Unit::Xform => {
            is_same(word, b"dsu_update") || is_same(word, b"dsu_transform") || is_version_name(word)
        }
        Unit::Hints | Unit::Certs => false,
    }
}

/// Whether the word begins with `dsu_old_` or `dsu_new_` and goes on.
fn is_version_name(word: &[u8]) -> bool
    ensures { result ≡ spec.is_version_name word.now }
{
    word.len() > 8 && (word.starts_with(b"dsu_old_") || word.starts_with(b"dsu_new_"))
}

/// Whether the unit may not use the word, since it is reserved.
pub fn is_refused(unit: Unit, word: &[u8]) -> bool
    ensures { result ≡ spec.is_refused unit word.now }
{
    word.starts_with(b"dsu_") && !is_allowed(unit, word)
}
