//! The call of the tool `dsu`: it merges two versions of a program, a transformer and maybe a client into one
//! program, which runs as the old version does until it is updated, shows the run of a merged program, and
//! shows the updated run itself.
#![tactic(auto)]

mod call;
mod merge;
mod merge_words;
mod numbers;
mod option_words;
mod reading;
mod replay;
mod replay_words;
mod reply;
mod run;
mod run_words;
mod shown;
mod status;
mod stop;
mod texts;
mod words;

pub use call::dsu;
pub use status::Status;
