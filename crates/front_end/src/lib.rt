//! From texts to typed programs and to worlds. A text that is none is refused, and always as the first
//! condition says that it doesn't meet.
#![tactic(auto)]

mod texts;
mod typed;
mod worlds;

pub use texts::{ClientText, UpdateTexts};
pub use typed::typed_text;
pub use worlds::{accept, check_sizes};
