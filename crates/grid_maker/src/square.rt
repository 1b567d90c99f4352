//! The size of a grid.

ghost use Rattle.std.specs.Prelude.{◌≤◌};

/// A square grid with `10 * size` rows and columns.
#[derive(Clone, Copy)]
pub struct Square {
    pub size: u32,
    pub ghost some: { 1 ≤ size },
    pub ghost few: { size ≤ 30 },
}
