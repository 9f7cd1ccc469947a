//! Kinds of clients.

ghost use Rattle.std.specs.Prelude.{◌≡◌};
ghost use Rattle.client_specs.specs.Kinds as spec;

use c_lang::Name;

/// What a client relies on: what both versions have, the new version once an update is forced, or a
/// function of each version where the time of the update decides.
#[derive(Clone, Copy, Debug, PartialEq, Eq)]
pub enum ClientKind {
    Backward,
    Post,
    Conform,
}

/// The kind that the name's prefix gives, where it has one.
#[tactic(auto, unfolding(crate::specs::Kinds::kind_of))]
pub fn kind_of(name: &Name) -> Option<ClientKind>
    ensures { result ≡ spec.kind_of name.now }
{
    let name = name.as_bytes();
    if name.starts_with(b"backward_") {
        Some(ClientKind::Backward)
    } else if name.starts_with(b"post_") {
        Some(ClientKind::Post)
    } else if name.starts_with(b"conform_") {
        Some(ClientKind::Conform)
    } else {
        None
    }
}

/// The kind by which a client with this name is checked: backward-compatible where the name gives none.
pub fn checked_kind(name: &Name) -> ClientKind
    ensures { result ≡ spec.checked_kind name.now }
{
    match kind_of(name) {
        Some(kind) => kind,
        None => ClientKind::Backward,
    }
}
