//! The texts of an update.

/// The text of a client, and the name of the function with which a run begins.
#[derive(Clone, Copy, Debug)]
pub struct ClientText<'a> {
    pub text: &'a [u8],
    pub spec: &'a [u8],
}

/// The texts of the two versions, of the transformer, and of the client, where there is one.
#[derive(Clone, Copy, Debug)]
pub struct UpdateTexts<'a> {
    pub old: &'a [u8],
    pub new: &'a [u8],
    pub xform: &'a [u8],
    pub client: Option<ClientText<'a>>,
}
