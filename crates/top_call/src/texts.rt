//! The texts of an update.

ghost use Rattle.std.specs.Prelude.{◌≡◌, IfOk, IsErrOf, option_map};
ghost use Rattle.front_end.specs.Seen as front;
ghost use Rattle.top_call.specs.Held.{HasReadCause};
ghost use Rattle.top_call.specs.Merge.{AreHeld, IsHeldClient, client_names, names_of};
ghost use Rattle.top_call.specs.Seen.{seen_client_file, seen_client_text, seen_update_files, seen_texts};

use crate::reading::read_text;
use crate::stop::Stop;
use crate::words::{ClientFile, UpdateFiles};
use c_lang::Unit;
use front_end::UpdateTexts;
use outside::Files;
use std::alloc::Global;

/// The text of a client, up to one byte past its limit, and the name of the function with which a run begins.
#[derive(Drop)]
pub(crate) struct ClientText<'a> {
    pub text: Vec<u8>,
    pub spec: &'a str,
}

/// The texts of the two versions, of the transformer, and of the client, where there is one, each up to one byte
/// past its limit.
#[derive(Drop)]
pub(crate) struct Texts<'a> {
    pub old: Vec<u8>,
    pub new: Vec<u8>,
    pub xform: Vec<u8>,
    pub client: Option<ClientText<'a>>,
}

impl Texts<'_> {
    /// The texts as slices.
    pub fn texts(&self) -> UpdateTexts<'_>
        ensures { front.seen_texts result ≡ seen_texts self.now }
    {
        UpdateTexts {
            old: &self.old,
            new: &self.new,
            xform: &self.xform,
            client: self.client_text(),
        }
    }

    fn client_text(&self) -> Option<front_end::ClientText<'_>>
        ensures { option_map front.seen_client result ≡ (seen_texts self.now).client }
    {
        match &self.client {
            Some(client) => Some(front_end::ClientText {
                text: &client.text,
                spec: client.spec.as_bytes(),
            }),
            None => None,
        }
    }
}

// Reads the client's text, where there is a client.
fn read_client<'a, F: Files>(
    alloc: Global,
    client: &Option<ClientFile<'a>>,
    files: &mut F,
) -> Result<Option<ClientText<'a>>, Stop>
    ensures text { IfOk result (λ text. IsHeldClient (F.held files.old) (option_map seen_client_file client.now) (option_map seen_client_text text)) }
    ensures shallow { IsErrOf result Stop.Deep → ⊥ }
    ensures cause { HasReadCause (client_names (option_map seen_client_file client.now))
        (F.faults files.old) (F.faults files.new) (F.failed files.new) result }
{
    let Some(client) = client else {
        return Ok(None);
    };
    let text = read_text(alloc, Unit::Client, client.file, files)?;
    Ok(Some(ClientText {
        text,
        spec: client.spec,
    }))
}

/// Reads the texts of the named files, the old one first, then the new one, the transformer and the client.
#[tactic(auto, using(crate::proofs::ReadLemmas::third))]
pub(crate) fn read_texts<'a, F: Files>(
    alloc: Global,
    update: &UpdateFiles<'a>,
    files: &mut F,
) -> Result<Texts<'a>, Stop>
    ensures texts { IfOk result (λ texts. AreHeld (F.held files.old) (seen_update_files update.now) (seen_texts texts)) }
    ensures shallow { IsErrOf result Stop.Deep → ⊥ }
    ensures cause { HasReadCause (names_of (seen_update_files update.now))
        (F.faults files.old) (F.faults files.new) (F.failed files.new) result }
{
    let old = read_text(alloc, Unit::Old, update.old, files)?;
    let new = read_text(alloc, Unit::New, update.new, files)?;
    let xform = read_text(alloc, Unit::Xform, update.xform, files)?;
    let client = read_client(alloc, &update.client, files)?;
    Ok(Texts {
        old,
        new,
        xform,
        client,
    })
}
