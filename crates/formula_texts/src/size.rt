/// How far a text is nested: how many parts stand in one another, how many brackets are open at
/// once, and how many operators stand along a path. A bracket and an operator are a part each, and
/// so is a name or a number.
#[derive(Clone, Copy, Debug)]
pub struct Size {
    pub height: u32,
    pub brackets: u32,
    pub operators: u32,
}
