//! The ids of the units.

ghost use Rattle.std.specs.Prelude.{◌≡◌, ◌≤◌, None, Ok, codes, length, IfOk};
ghost use Rattle.audit_model.specs.declared.setting.Columns.{Columns};
ghost use Rattle.audit_model.specs.Parsed.{Parsed};
ghost use Rattle.audit_statement.specs.Reading.{reading};
ghost use Rattle.audit_statement.specs.Regions.{id_reading};
ghost use Rattle.dual_json.specs.Numbered.{IsGraphText};
ghost use Rattle.dual_json.specs.Places.{first_unnamed, AreLabels};
ghost use Rattle.dual_json.specs.Shape.{views};
ghost use Rattle.audit_model.specs.Limits.{most_units};

use crate::districts::labels_of;
use crate::names::{Unnamed, names_at};
use crate::read::value_of;
use crate::shape::parts_of;
use crate::value::Value;
use audit_model::lists::LabelList;
use audit_model::memory::Memory;
use json::Scratch;
use std::alloc::Global;

/// Reads the ids of the units by parsing the text of a graph again. The text must have been
/// accepted by [`crate::read_graph`]. Fails only if there is no memory.
pub fn read_ids(alloc: Global, bytes: &[u8]) -> Result<LabelList, Memory>
    requires graph { IsGraphText bytes.now }
    ensures read { IfOk result (λ ids. ids ≡ id_reading bytes.now) }
    ensures width { IfOk result (λ ids. (columns : Columns) (parsed : Parsed) → reading bytes.now columns ≡ Ok parsed → length ids ≡ parsed.graph.units) }
    ensures few { IfOk result (λ ids. length ids ≤ most_units) }
{
    let mut scratch = Scratch::new(alloc);
    ids_beside(alloc, bytes, &mut scratch)
}

/// Does the work of [`read_ids`]. The buffer receives texts whose escapes are decoded.
fn ids_beside<'t>(
    alloc: Global,
    bytes: &'t [u8],
    scratch: &'t mut Scratch,
) -> Result<LabelList, Memory>
    requires graph { IsGraphText bytes.now }
    ensures read { IfOk result (λ ids. ids ≡ id_reading bytes.now) }
    ensures width { IfOk result (λ ids. (columns : Columns) (parsed : Parsed) → reading bytes.now columns ≡ Ok parsed → length ids ≡ parsed.graph.units) }
    ensures few { IfOk result (λ ids. length ids ≤ most_units) }
{
    match value_of(alloc, bytes, scratch) {
        Ok(root) => match parts_of(&root) {
            Ok(parts) => {
                let ids = ids_in(alloc, parts.nodes);
                drop(root);
                ids
            }
            Err(_) => unreachable!(),
        },
        Err(_) => Err(Memory),
    }
}

/// Returns the ids of nodes, each of which has one.
fn ids_in(alloc: Global, nodes: &[Value<'_>]) -> Result<LabelList, Memory>
    requires few { length nodes.now ≤ most_units }
    requires named { first_unnamed (codes "id") (views nodes.now) ≡ None }
    ensures { IfOk result (λ ids. AreLabels (codes "id") (views nodes.now) ids) }
{
    match names_at(alloc, nodes, "id") {
        Ok(names) => match labels_of(alloc, &names) {
            Ok(ids) => Ok(ids),
            Err(_) => Err(Memory),
        },
        Err(Unnamed::At(_)) => unreachable!(),
        Err(Unnamed::Memory) => Err(Memory),
    }
}
