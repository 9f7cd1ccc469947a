ghost use Rattle.std.specs.Prelude.{◌≡◌, ◌≤◌, ◌<◌, ◌^◌, ℕ, true, false, length, IfOk, IfErr, List};
ghost use Rattle.std.specs.List.{All};
ghost use Rattle.linear_rows.specs.declared.row.Row.{Row};
ghost use Rattle.linear_rows.specs.Sums.{IsInForm, row_fits};
ghost use Rattle.linear_certs.specs.declared.leaf.Leaf.{Leaf};
ghost use Rattle.linear_certs.specs.Points.{IsFar, IsCoefficientSize, IsBoundSize, IsDenominatorSize, IsNumeratorSize, atoms_of, size_bound};
ghost use Rattle.linear_certs.specs.Answers.{IsLeaf, EliminationRefutes, IsFoundOrNoMemory};
ghost use Rattle.linear_certs.specs.Code.Building.{AreGiven, IsEliminated};

use crate::elimination::{Elimination, eliminate_all};
use crate::given::open_rows;
use crate::leaf::Leaf;
use crate::point::point;
use linear_rows::Row;
use std::alloc::Global;

fn eliminate(alloc: Global, rows: &[Row]) -> Result<Elimination, Leaf>
    requires { AreGiven rows.now }
    ensures ok { IfOk result (IsEliminated rows.now) }
    ensures err { IfErr result (IsLeaf rows.now) }
{
    match open_rows(alloc, rows) {
        Ok(first) => eliminate_all(alloc, rows, first),
        Err(leaf) => Err(leaf),
    }
}

/// Eliminates the atoms of rows in form, whose numbers are at most 2^100 in size. `IsLeaf` says
/// what each answer means. Where a stage of the rows has a constant false row, no stage before it a
/// wide pair, and no stage up to it more than 20,000 rows, the answer is `Found` or `NoMemory`.
///
/// The point is the one of the stages, and `Far` comes where a number of it is past 128 bits.
pub fn refute(alloc: Global, rows: &[Row]) -> Leaf
    requires in_form { All IsInForm rows.now }
    requires narrow { All (λ row. row_fits row ≡ true) rows.now }
    ensures leaf { IsLeaf rows.now result }
    ensures refuted { EliminationRefutes rows.now → IsFoundOrNoMemory result }
{
    match eliminate(alloc, rows) {
        Ok(whole) => point(alloc, rows, &whole),
        Err(leaf) => leaf,
    }
}

/// Whatever answer is right for refuted rows is `Found` or `NoMemory`.
pub fn refuted_rows()
    ensures { (rows : List Row) (leaf : Leaf) → IsLeaf rows leaf → EliminationRefutes rows →
        IsFoundOrNoMemory leaf }
{}

/// Where `Far` is right, the size bound is past 2^120 for all sizes that are at least as large as
/// the ones that occur, so for the largest ones too.
pub fn far_sizes()
    ensures { (rows : List Row) (atom : ℕ) (far : IsFar rows atom) (coefficient bound den num : ℕ) →
        ((size : ℕ) → IsCoefficientSize rows size → size ≤ coefficient) →
        ((size : ℕ) → IsBoundSize rows size → size ≤ bound) →
        ((size : ℕ) → IsDenominatorSize rows far.from size → size ≤ den) →
        ((size : ℕ) → IsNumeratorSize rows far.from size → size ≤ num) →
        2 ^ 120 < size_bound (length (atoms_of rows)) coefficient bound den num }
{}

/// Whether the rows are as `refute` wants them.
pub fn are_given(rows: &[Row]) -> bool
    ensures in_form { result ≡ true → All IsInForm rows.now }
    ensures narrow { result ≡ true → All (λ row. row_fits row ≡ true) rows.now }
    ensures no { result ≡ false → All IsInForm rows.now →
        All (λ row. row_fits row ≡ true) rows.now → ⊥ }
{
    for row in rows {
        if !row.is_in_form() {
            return false;
        }
        if !row.fits() {
            return false;
        }
    }
    true
}
