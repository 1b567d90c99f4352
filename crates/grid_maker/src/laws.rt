//! Laws of the grid. Each law is the contract of a function with an empty body.

ghost use Rattle.std.specs.Prelude.{ℕ, ◌≤◌, List, length, IsOk};
ghost use Rattle.audit_statement.specs.Grid.{grid};
ghost use Rattle.audit_statement.specs.Reading.{reading};
ghost use Rattle.grid_maker.specs.Columns.{grid_columns};

/// Shows that the text of each grid is accepted as a graph.
pub fn grids_are_graphs()
    ensures { (size : ℕ) (key : List ℕ) → 1 ≤ size → size ≤ 30 → IsOk (reading (grid size key) grid_columns) }
{}

/// Shows that the text of each grid is at most as long as a source may be.
pub fn grids_are_short()
    ensures { (size : ℕ) (key : List ℕ) → 1 ≤ size → size ≤ 30 → length (grid size key) ≤ 67108864 }
{}
