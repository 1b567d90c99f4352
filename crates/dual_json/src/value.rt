//! Values of a JSON text.

ghost use Rattle.std.specs.Prelude.{◌≡◌, is_some, option_map, option_and_then};
ghost use Rattle.serde_json.specs.Find.{as_array, as_bool, as_number, as_object, as_u64, get, get_member};
ghost use Rattle.dual_json.specs.Values.{value_data, items_data, members_data};

use serde_json::Number;

/// A JSON value whose texts are borrowed.
///
/// A text is a slice of the JSON or, if it has escapes, of the scratch buffer. An object keeps its
/// members in the order of the JSON. If two members have one key, the last one counts.
#[derive(Drop)]
pub enum Value<'t> {
    Null,
    Bool(bool),
    Number(Number),
    String(&'t str),
    Array(Vec<Value<'t>>),
    Object(Vec<(&'t str, Value<'t>)>),
}

impl<'t> Value<'t> {
    /// Returns the value at a key, if this value is an object that has the key.
    pub fn get(&self, key: &str) -> Option<&Value<'t>>
        ensures { option_map (λ v. value_data v.now) result ≡ get key.now (value_data self.now) }
    {
        match self {
            Value::Object(members) => last_at(members, key),
            _ => None,
        }
    }

    /// Returns true if the value is an object.
    pub fn is_object(&self) -> bool
        ensures { result ≡ is_some (as_object (value_data self.now)) }
    {
        matches!(self, Value::Object(_))
    }

    /// Returns true if the value is an array.
    pub fn is_array(&self) -> bool
        ensures { result ≡ is_some (as_array (value_data self.now)) }
    {
        matches!(self, Value::Array(_))
    }

    /// Returns the items, if the value is an array.
    pub fn as_array(&self) -> Option<&Vec<Value<'t>>>
        ensures { option_map (λ v. items_data v.now.items) result ≡ as_array (value_data self.now) }
    {
        match self {
            Value::Array(items) => Some(items),
            _ => None,
        }
    }

    /// Returns the Boolean, if the value is one.
    pub fn as_bool(&self) -> Option<bool>
        ensures { result ≡ as_bool (value_data self.now) }
    {
        match self {
            Value::Bool(flag) => Some(*flag),
            _ => None,
        }
    }

    /// Returns the integer, if the value is one from 0 to 2^64 - 1.
    pub fn as_u64(&self) -> Option<u64>
        ensures { result ≡ option_and_then as_u64 (as_number (value_data self.now)) }
    {
        match self {
            Value::Number(number) => number.as_u64(),
            _ => None,
        }
    }
}

/// Returns the value of the last member with this key.
fn last_at<'v, 't>(members: &'v Vec<(&'t str, Value<'t>)>, key: &str) -> Option<&'v Value<'t>>
    ensures { option_map (λ v. value_data v.now) result ≡ get_member key.now (members_data members.now.items) }
{
    let mut left = members.len();
    while left > 0 {
        left -= 1;
        let member = &members[left];
        if member.0 == key {
            return Some(&member.1);
        }
    }
    None
}
