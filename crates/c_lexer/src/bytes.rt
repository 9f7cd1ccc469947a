//! Classes of bytes, and runs of them.

ghost use Rattle.std.specs.Prelude.{◌≡◌, ◌≢◌, ◌<◌, ◌≤◌, length, slice_index, bytes_eq};
ghost use Rattle.std.specs.List.{prefix_len};
ghost use Rattle.c_lang.specs.Names.{is_digit as digit, is_letter as letter};
ghost use Rattle.c_lexer.specs.Code.Reading.{is_in as in_class};
ghost use Rattle.c_grammar.specs.Bytes.{is_white as white};

/// A class of bytes.
#[derive(Clone, Copy)]
pub enum Class {
    Digit,
    /// Letters, digits and `_`.
    Word,
    /// What a number runs over: letters, digits, `_` and `.`.
    Number,
    /// All but the line feed.
    Line,
    /// Space and tab.
    Blank,
    Space,
}

/// Whether the byte is a digit.
pub fn is_digit(byte: u8) -> bool
    ensures { result ≡ digit byte }
{
    b'0' <= byte && byte <= b'9'
}

/// Whether the byte is a letter or `_`.
pub fn is_letter(byte: u8) -> bool
    ensures { result ≡ letter byte }
{
    (b'a' <= byte && byte <= b'z') || (b'A' <= byte && byte <= b'Z') || byte == b'_'
}

/// Whether the byte is white space.
pub fn is_white(byte: u8) -> bool
    ensures { result ≡ white byte }
{
    byte == b' ' || (b'\t' <= byte && byte <= b'\r')
}

/// Whether the byte is of the class.
pub fn is_in(class: Class, byte: u8) -> bool
    ensures { result ≡ in_class class byte }
{
    match class {
        Class::Digit => is_digit(byte),
        Class::Word => is_letter(byte) || is_digit(byte),
        Class::Number => is_letter(byte) || is_digit(byte) || byte == b'.',
        Class::Line => byte != b'\n',
        Class::Blank => byte == b' ' || byte == b'\t',
        Class::Space => byte == b' ',
    }
}

/// How many bytes of the class stand at the front.
pub fn run_of(class: Class, text: &[u8]) -> usize
    ensures value { result ≡ prefix_len (in_class class) text.now }
    ensures within { result ≤ length text.now }
{
    let mut end = 0;
    while end < text.len() && is_in(class, text[end]) {
        end += 1;
    }
    end
}

/// The byte at a place, or 0 past the end.
pub fn byte_at(text: &[u8], at: usize) -> u8
    ensures value { result ≡ slice_index text.now at }
    ensures within { result ≢ 0 → at < length text.now }
{
    if at < text.len() { text[at] } else { 0 }
}

/// `==`, as contracts write it.
pub fn is_same(a: &[u8], b: &[u8]) -> bool
    ensures { result ≡ bytes_eq a.now b.now }
{
    a == b
}
