// Whether all numbers of a list are cells.
ghost use Rattle.std.specs.Prelude.{◌≡◌};
ghost use Rattle.instance.specs.Rows.{are_cells};

use calculus::cell::is_cell;

pub fn are_cells(cells: &[u32]) -> bool
    ensures { result ≡ are_cells cells.now }
{
    cells.iter().all(|cell| is_cell(*cell))
}
