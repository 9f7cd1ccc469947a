//! Where in a client a name stands.

/// Before a force or where none stands, behind it in the outermost block, and in the first and the
/// second call of a pick.
#[derive(Clone, Copy, Debug, PartialEq, Eq)]
pub enum Region {
    Here,
    Behind,
    After,
    Before,
}
