//! Certificates, read from and written as JSON. Which text is which list of certificates stands in
//! `specs/Certificates`, what is written in `specs/Written`.
#![tactic(auto)]

pub mod cert;
pub mod laws;
mod number;
mod parts;
mod reading;
mod rules;
mod values;
mod word;
mod writing;

pub use cert::{Cert, Rule};
pub use reading::read_certs;
pub use writing::write_certs;
