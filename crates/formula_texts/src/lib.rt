//! The texts of forms and terms: which text is which form, how forms are written, and that what is
//! written is read back.
#![tactic(auto)]

mod apply;
mod found;
mod front;
mod laws;
pub mod lexer;
mod names;
mod pending;
mod read;
mod reader;
pub mod size;
pub mod stop;
pub mod token;
pub mod value;
mod write;

pub use laws::{one_meaning, one_value, written_is_ascii, written_is_read};
pub use names::{has_name_text, put_name};
pub use read::{Limits, read_form, read_name, read_term, read_tokens};
pub use size::Size;
pub use stop::Stop;
pub use token::{Mark, Operator, Token};
pub use value::Value;
pub use write::{put_form, put_term};
