use linear_rows::Row;

/// What the elimination of rows comes to.
#[derive(Debug, Drop)]
pub enum Leaf {
    /// One multiplier for each row, negative only for an equality. The rows with these, added in
    /// order, come to a constant that is false, and no partial sum passes 2^100 in size.
    Found(Vec<i128>),
    /// Numbers that satisfy every row, over a denominator above 0. A number's place is its atom's,
    /// and an atom past the end has the number 0.
    Point { den: i128, nums: Vec<i128> },
    /// Two rows of a stage whose sum without the atom needs a number past 2^100 in size. No stage up
    /// to that one has a constant false row.
    Wide { left: Row, right: Row, atom: u32 },
    /// The point needs large numbers: the size bound at this atom passes 2^120. No stage has a
    /// constant false row.
    Far(u32),
    /// A stage has more than this number of rows, which is 20,000. No stage before it has a
    /// constant false row.
    Rows(u32),
    NoMemory,
}
