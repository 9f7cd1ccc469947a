use c_lang::Event;

/// How a run stands after its steps.
#[derive(Clone, Copy, Debug, PartialEq, Eq)]
pub enum Close {
    /// It is over, and its last event is the end.
    Ended,
    /// It is over, and its last event is a fault.
    Faulted,
    /// It wants an answer, and none is left.
    Waiting,
    /// A further step would go on.
    Running,
}

/// The events that a run showed, and how it stands then.
#[derive(Debug, Drop)]
pub struct Replay {
    pub events: Vec<Event>,
    pub close: Close,
}
