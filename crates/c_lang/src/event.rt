ghost use Rattle.std.specs.Prelude.{◌≡◌, Some};
ghost use Rattle.c_lang.specs.Events.{choice_digit, event_text, trap_word};

use crate::Pos;
use std::fmt;

/// A fault that ends a run.
#[derive(Clone, Copy, Debug, PartialEq, Eq)]
pub enum Trap {
    Assert,
    Overflow,
    Divide,
    Index,
    NullCall,
}

impl Trap {
    /// The fault's word in printed lines.
    pub fn as_str(self) -> &'static str
        ensures { result.now ≡ trap_word self }
    {
        match self {
            Trap::Assert => "assert",
            Trap::Overflow => "overflow",
            Trap::Divide => "divide",
            Trap::Index => "index",
            Trap::NullCall => "nullcall",
        }
    }
}

impl fmt::Display for Trap {
    ghost output = { λ trap. Some (trap_word trap) };

    fn fmt<W: fmt::Write>(&self, f: &mut fmt::Formatter<W>) -> fmt::Result {
        f.write_str(self.as_str())
    }
}

/// What a run shows: an input, an output, the choice at an update point, a fault with the position
/// of its statement, and the value at the end.
#[derive(Clone, Copy, Debug, PartialEq, Eq)]
pub enum Event {
    Input(i32),
    Output(i32),
    Choice(u32, bool),
    Fault(Trap, Pos),
    End(i32),
}

// 1 where the update was chosen, else 0.
fn chosen_digit(chosen: bool) -> &'static str
    ensures { result.now ≡ choice_digit chosen }
{
    if chosen { "1" } else { "0" }
}

/// The event's printed line, without the line's end: `in V`, `out V`, `choice K B`,
/// `fault KIND UNIT LINE` or `end V`.
impl fmt::Display for Event {
    ghost output = { λ event. Some (event_text event) };

    fn fmt<W: fmt::Write>(&self, f: &mut fmt::Formatter<W>) -> fmt::Result {
        match self {
            Event::Input(number) => write!(f, "in {number}"),
            Event::Output(number) => write!(f, "out {number}"),
            Event::Choice(k, chosen) => write!(f, "choice {k} {}", chosen_digit(*chosen)),
            Event::Fault(trap, pos) => write!(f, "fault {trap} {} {}", pos.unit, pos.line),
            Event::End(number) => write!(f, "end {number}"),
        }
    }
}
