//! The language that the tool works on: programs as syntax trees, positions, refusals and events,
//! and in `specs/` what a program means.
#![tactic(auto)]

pub mod event;
pub mod expr;
pub mod limits;
pub mod name;
pub mod program;
pub mod refusal;
pub mod stmt;
pub mod unit;

pub use event::{Event, Trap};
pub use expr::{Expr, Op};
pub use limits::{ELEMENT_LIMIT, FRAME_LIMIT, PARAMETER_LIMIT, cell_limit, height_limit, limit_of};
pub use name::Name;
pub use program::{Func, GlobalVar, Program, Proto, Shape};
pub use refusal::{Fail, Refusal};
pub use stmt::{Dest, Kind, Stmt, same_kinds, same_result};
pub use unit::{Pos, Unit};
