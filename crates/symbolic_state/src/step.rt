use terms::{Changes, Fact};

/// One step of what stands round a condition: from here on names are replaced, or a fact is given.
#[derive(Debug, Drop)]
pub enum Step {
    Replaces(Changes),
    Assumes(Fact),
}
