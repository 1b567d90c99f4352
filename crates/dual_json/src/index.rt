//! The map from ids to nodes.

ghost use Rattle.std.specs.Prelude.{◌≡◌, ◌<◌, ◌≤◌, ◌⊎◌, None, Some, length, MatchResult};
ghost use Rattle.dual_json.specs.Values.{value_data};
ghost use Rattle.audit_model.specs.declared.fault.GraphFault.TheVariants.{Memory};
ghost use Rattle.dual_json.specs.Names.{label_from};
ghost use Rattle.dual_json.specs.Places.{labels_from, nth, repeated_label, place_of_entry, IsLabelIndex};
ghost use Rattle.audit_model.specs.Limits.{most_units};

use crate::names::{NodeName, name_at};
use crate::value::Value;
use audit_model::fault::GraphFault;
use std::alloc::Global;
use std::collections::HashMap;
use std::marker::Model;

/// The ids of all nodes, which are distinct, and the map from each id to its node.
pub struct Index<'v> {
    names: Vec<NodeName<'v>>,
    places: HashMap<NodeName<'v>, u32>,
}

/// Drops the fields one by one. Written by hand so that a caller's proof has one call here, not one
/// per field.
impl Drop for Index<'_> {
    fn drop(self) {
        let Index {
            names: _names,
            places: _places,
        } = self;
    }
}

impl<'v> Model for Index<'v> {
    ghost use Rattle.std.specs.Prelude.{List};
    ghost use Rattle.dual_json.specs.Places.{labels_from, IsLabelIndex};
    ghost use Rattle.audit_model.specs.declared.setting.Label.{Label};

    ghost Value = { List Label };

    ghost view = { λ x. labels_from x.names.items };

    ghost invariant = { λ x. IsLabelIndex (labels_from x.names.items) x.places };
}

impl<'v> Index<'v> {
    /// Builds the map. If two nodes have one id, returns `SameId`: `second` is the least node whose
    /// id an earlier node has, and `first` is that earlier node.
    pub fn of(alloc: Global, names: Vec<NodeName<'v>>) -> Result<Index<'v>, GraphFault>
        requires { length names.items ≤ most_units }
        ensures { MatchResult result (λ index. (repeated_label (labels_from names.entry.items) ≡ None) × (index ≡ labels_from names.entry.items))
            (λ f. (f ≡ Memory) ⊎ (repeated_label (labels_from names.entry.items) ≡ Some f)) }
    {
        match places_of(alloc, &names) {
            Ok(places) => Ok(Index { names, places }),
            Err(fault) => Err(fault),
        }
    }

    /// Returns the id of a node.
    pub fn name(&self, node: u32) -> NodeName<'v>
        requires { node < length self.now }
        ensures { label_from result ≡ nth self.now node }
    {
        self.names[node as usize]
    }

    /// Returns the node whose id is in an adjacency entry, if there is one.
    pub fn node_of(&self, entry: &Value<'v>) -> Option<u32>
        ensures { result ≡ place_of_entry self.now (value_data entry.now) }
    {
        // Reading a field makes the type's invariant known to the prover.
        let _ = &self.names;
        match name_at(entry, "id") {
            Some(name) => self.places.get(&name).copied(),
            None => None,
        }
    }
}

/// Maps each id to its node. If two nodes have one id, returns `SameId` as [`Index::of`] does.
fn places_of<'v>(
    alloc: Global,
    names: &[NodeName<'v>],
) -> Result<HashMap<NodeName<'v>, u32>, GraphFault>
    requires { length names.now ≤ most_units }
    ensures { MatchResult result (λ places. (repeated_label (labels_from names.now) ≡ None) × IsLabelIndex (labels_from names.now) places)
        (λ f. (f ≡ Memory) ⊎ (repeated_label (labels_from names.now) ≡ Some f)) }
{
    let mut places = HashMap::with_capacity(alloc, names.len())?;
    for place in 0..names.len() {
        let second = place as u32;
        match places.insert(names[place], second) {
            Ok(None) => {}
            Ok(Some(first)) => return Err(GraphFault::SameId { first, second }),
            Err(_) => return Err(GraphFault::Memory),
        }
    }
    Ok(places)
}
