//! What two versions of a program share and what changed, name by name, and the names that a merged
//! program has.
#![tactic(auto)]

mod declared;
mod links;
mod merged;
mod part;
mod status;
mod table;

pub use links::{Links, link, parts_are_linked};
pub use merged::{merged_bytes, merged_name, names_are_apart};
pub use part::{Origin, Part, Sort2, Version};
