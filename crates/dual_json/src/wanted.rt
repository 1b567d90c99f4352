//! The keys at which a reader looks.

ghost use Rattle.std.specs.Prelude.{◌≡◌};
ghost use Rattle.dual_json.specs.Kept.{is_column, is_part, is_wanted};

use audit_model::setting::Columns;

/// The members of objects that are read into memory. A file may have many more.
#[derive(Clone, Copy)]
pub enum Wanted<'c> {
    /// All members.
    All,
    /// The parts of the root, the ids, and the columns.
    Of(&'c Columns),
}

impl Wanted<'_> {
    /// Returns true if the member with this key is wanted.
    pub fn has(self, key: &str) -> bool
        ensures { result ≡ is_wanted self.entry key.now }
    {
        match self {
            Wanted::All => true,
            Wanted::Of(columns) => is_part(key) || is_column(columns, key),
        }
    }
}

/// Returns true for the key of an id or of a part of the root.
fn is_part(key: &str) -> bool
    ensures { result ≡ is_part key.now }
{
    key == "id" || key == "nodes" || key == "adjacency" || key == "directed" || key == "multigraph"
}

/// Returns true for the key of a column.
fn is_column(columns: &Columns, key: &str) -> bool
    ensures { result ≡ is_column columns.now key.now }
{
    key == columns.population.as_str()
        || key == columns.first.as_str()
        || key == columns.second.as_str()
        || key == columns.district.as_str()
        || key == columns.group.as_str()
        || key == columns.whole.as_str()
        || key == columns.frozen.as_str()
        || key == columns.length.as_str()
}
