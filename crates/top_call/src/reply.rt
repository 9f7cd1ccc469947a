ghost use Rattle.std.specs.Prelude.{◌≡◌, IfOk};
ghost use Rattle.top_call.specs.Replies.{refused, refusal_line};
ghost use Rattle.top_call.specs.Seen.{seen_reply};

use crate::status::Status;
use c_lang::Refusal;
use std::alloc::{AllocError, Global};

/// A status, and the text that is put.
#[derive(Drop)]
pub(crate) struct Reply {
    pub status: Status,
    pub text: Vec<u8>,
}

/// The refusal's line, with the status.
pub(crate) fn refuse(alloc: Global, refusal: &Refusal) -> Result<Reply, AllocError>
    ensures { IfOk result (λ reply. seen_reply reply ≡ refused refusal.now) }
{
    Ok(Reply {
        status: Status::Refused,
        text: refusal_text(alloc, refusal)?,
    })
}

fn refusal_text(alloc: Global, refusal: &Refusal) -> Result<Vec<u8>, AllocError>
    ensures { IfOk result (λ text. text.items ≡ refusal_line refusal.now) }
{
    let text = format!(in alloc; "{refusal}\n")?;
    Ok(text.into_bytes())
}
