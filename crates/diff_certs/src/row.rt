ghost use Rattle.std.specs.Prelude.{◌≡◌, ◌↔◌, IsTrue};
ghost use Rattle.std.specs.List.{All};
ghost use Rattle.diff_certs.specs.Rows.{node, IsName, IsInside};

/// `left - right <= bound`, a missing side being 0.
#[derive(Clone, Copy, Debug, PartialEq, Eq)]
pub struct DiffRow {
    pub left: Option<u32>,
    pub right: Option<u32>,
    pub bound: i64,
}

/// A side as a number: a name is itself, and 0 is 64.
pub(crate) fn node(side: Option<u32>) -> u32
    ensures { result ≡ node side }
{
    match side {
        Some(name) => name,
        None => 64,
    }
}

/// 2^40, the largest size of a bound.
const LARGEST_BOUND: i64 = 1099511627776;

fn is_name(side: Option<u32>) -> bool
    ensures { IsTrue result ↔ IsName side }
{
    match side {
        Some(name) => name < 64,
        None => true,
    }
}

impl DiffRow {
    /// Whether the names are below 64 and the bound is at most 2^40 in size.
    pub fn is_inside(&self) -> bool
        ensures { IsTrue result ↔ IsInside self.now }
    {
        is_name(self.left)
            && is_name(self.right)
            && -LARGEST_BOUND <= self.bound
            && self.bound <= LARGEST_BOUND
    }
}

/// Whether all rows are inside, as `refute_diff` wants them.
pub fn are_inside(rows: &[DiffRow]) -> bool
    ensures { IsTrue result ↔ All IsInside rows.now }
{
    rows.iter().all(|row| row.is_inside())
}
