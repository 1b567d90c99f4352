//! Ids and labels, whose texts are borrowed from the JSON.

ghost use Rattle.std.specs.Prelude.{◌≡◌, ◌≤◌, refl, None, Some, length, IfOk, MatchResult, option_map, option_and_then};
ghost use Rattle.audit_model.specs.Label.{label_cmp, same_label};
ghost use Rattle.dual_json.specs.Values.{value_data};
ghost use Rattle.audit_statement.specs.Reading.{label_of};
ghost use Rattle.dual_json.specs.Places.{label_at_key, labels_from, first_unnamed, AreLabels, MatchesUnnamed};
ghost use Rattle.dual_json.specs.Shape.{views};
ghost use Rattle.dual_json.specs.Names.{label_from, name_cmp, same_name, name_writes, name_equiv, name_total, name_per, name_po, name_hashes};
ghost use Rattle.audit_model.specs.Limits.{most_units};

use crate::value::Value;
use audit_model::memory::Memory;
use audit_model::setting::Label;
use audit_model::text::Text;
use std::alloc::Global;
use std::cmp::Ordering;
use std::hash::{Hash, Hasher};

/// An id of a node or a label of a district or region: an integer or a text.
#[derive(Clone, Copy)]
pub enum NodeName<'v> {
    Whole(i128),
    Word(&'v str),
}

impl NodeName<'_> {
    /// Copies the id or label, and its text. Fails if there is no memory.
    pub fn to_label(&self, alloc: Global) -> Result<Label, Memory>
        ensures { IfOk result (λ l. l ≡ label_from self.now) }
    {
        match self {
            NodeName::Whole(number) => Ok(Label::Whole(*number)),
            NodeName::Word(word) => {
                let mut text = Text::new(alloc);
                text.push_str(*word)?;
                Ok(Label::Word(text))
            }
        }
    }
}

impl PartialEq for NodeName<'_> {
    ghost eq = { same_name };

    ghost laws = { name_per };

    fn eq(&self, other: &Self) -> bool {
        self.cmp(other) == Ordering::Equal
    }
}

impl Eq for NodeName<'_> {
    ghost laws = { name_equiv };
}

impl PartialOrd for NodeName<'_> {
    ghost partial_cmp = { λ a b. Some (name_cmp a b) };

    ghost laws = { name_po };

    fn partial_cmp(&self, other: &Self) -> Option<Ordering> {
        Some(self.cmp(other))
    }
}

impl Ord for NodeName<'_> {
    ghost cmp = { name_cmp };

    ghost total = { name_total };

    ghost matches_partial_cmp = { λ a b. refl };

    ghost matches_eq = { λ a b. refl };

    fn cmp(&self, other: &Self) -> Ordering {
        match (self, other) {
            (NodeName::Whole(a), NodeName::Whole(b)) => a.cmp(b),
            (NodeName::Whole(_), NodeName::Word(_)) => Ordering::Less,
            (NodeName::Word(_), NodeName::Whole(_)) => Ordering::Greater,
            (NodeName::Word(a), NodeName::Word(b)) => a.cmp(b),
        }
    }
}

impl Hash for NodeName<'_> {
    ghost hash_input = { name_writes };

    ghost respects_eq = { name_hashes };

    fn hash<H: Hasher>(&self, state: &mut H) {
        match self {
            NodeName::Whole(number) => number.hash(state),
            NodeName::Word(word) => word.hash(state),
        }
    }
}

/// Returns the value as an id or label, if it is an integer or a text.
pub fn name_of<'v>(value: &Value<'v>) -> Option<NodeName<'v>>
    ensures { option_map label_from result ≡ label_of (value_data value.now) }
{
    match value {
        Value::Number(number) => match number.as_i128() {
            Some(whole) => Some(NodeName::Whole(whole)),
            None => None,
        },
        Value::String(text) => Some(NodeName::Word(*text)),
        _ => None,
    }
}

/// Returns the id or label at a key of an object, if there is one.
pub fn name_at<'v>(object: &Value<'v>, key: &str) -> Option<NodeName<'v>>
    ensures { option_map label_from result ≡ label_at_key key.now (value_data object.now) }
{
    match object.get(key) {
        Some(value) => name_of(value),
        None => None,
    }
}

/// The reason why ids or labels could not be read: the index of the first object without one, or
/// out of memory.
#[derive(Clone, Copy)]
pub enum Unnamed {
    At(u32),
    Memory,
}

/// Returns the ids or labels at a key of all objects. Returns the index of the first object without
/// one as an error.
pub fn names_at<'v>(
    alloc: Global,
    objects: &[Value<'v>],
    key: &str,
) -> Result<Vec<NodeName<'v>>, Unnamed>
    requires { length objects.now ≤ most_units }
    ensures { MatchResult result (λ names. (first_unnamed key.now (views objects.now) ≡ None) × AreLabels key.now (views objects.now) (labels_from names.items))
        (λ why. MatchesUnnamed why (first_unnamed key.now (views objects.now))) }
{
    let mut names = Vec::new(alloc);
    for i in 0..objects.len() {
        let Some(name) = name_at(&objects[i], key) else {
            return Err(Unnamed::At(i as u32));
        };
        let Ok(()) = names.push(name) else {
            return Err(Unnamed::Memory);
        };
    }
    Ok(names)
}
