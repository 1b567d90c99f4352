//! The required fields of adjacency entries.

ghost use Rattle.std.specs.Prelude.{◌≡◌, ◌≤◌, None, Some, length, MatchResult};
ghost use Rattle.audit_model.specs.Limits.{most_units};
ghost use Rattle.dual_json.specs.Edges.{first_in, first_entry_in};
ghost use Rattle.dual_json.specs.Required.{is_missing, missing_fault};
ghost use Rattle.dual_json.specs.Shape.{lists_in, views};
ghost use Rattle.dual_json.specs.Values.{value_data};

use crate::lengths::length_at;
use crate::names::name_at;
use crate::shape::entries_of;
use crate::value::Value;
use audit_model::fault::GraphFault;

/// A field that every adjacency entry must have.
#[derive(Clone, Copy)]
pub enum Required<'k> {
    /// An id.
    Id,
    /// A value at the key.
    Value(&'k str),
    /// A length at the key: an integer from 0 to 2^32 - 1.
    Length(&'k str),
}

impl Required<'_> {
    /// Returns true if the entry does not have what is required.
    fn is_missing(self, entry: &Value<'_>) -> bool
        ensures { result ≡ is_missing self.entry (value_data entry.now) }
    {
        match self {
            Required::Id => name_at(entry, "id").is_none(),
            Required::Value(key) => entry.get(key).is_none(),
            Required::Length(key) => length_at(entry, key).is_none(),
        }
    }

    /// Returns the fault of an entry that does not have what is required.
    fn fault(self, node: u32, place: u64) -> GraphFault
        ensures { result ≡ missing_fault self.entry node place }
    {
        match self {
            Required::Id => GraphFault::BadNeighbour { node, place },
            Required::Value(_) => GraphFault::MissingLength { node, place },
            Required::Length(_) => GraphFault::BadLength { node, place },
        }
    }
}

/// Returns the index of the first entry that does not have what is required.
fn first_missing(entries: &[Value<'_>], required: Required<'_>) -> Option<usize>
    ensures { result ≡ first_in (is_missing required.entry) (views entries.now) }
{
    for place in 0..entries.len() {
        if required.is_missing(&entries[place]) {
            return Some(place);
        }
    }
    None
}

/// Checks that each entry has what is required. Otherwise returns the fault of the first entry that
/// does not.
pub fn check_entries(adjacency: &[Value<'_>], required: Required<'_>) -> Result<(), GraphFault>
    requires { length adjacency.now ≤ most_units }
    ensures { MatchResult result (λ _. first_entry_in (is_missing required.entry) (missing_fault required.entry) (lists_in adjacency.now) ≡ None)
        (λ f. first_entry_in (is_missing required.entry) (missing_fault required.entry) (lists_in adjacency.now) ≡ Some f) }
{
    for node in 0..adjacency.len() {
        if let Some(place) = first_missing(entries_of(adjacency, node), required) {
            return Err(required.fault(node as u32, place as u64));
        }
    }
    Ok(())
}
