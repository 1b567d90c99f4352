//! A JSON parser. It makes values whose texts are borrowed, and reads each token once. It drops the
//! members that nobody wants as soon as they are read.

ghost use Rattle.std.specs.Prelude.{◌≡◌, ◌<◌, ◌++◌, ◌∷◌, [], cond, length, option_map, Some, None, Err, IfOk, OnOk, OnErr};
ghost use Rattle.json.specs.Json.{value, items, members, parse_map};
ghost use Rattle.serde_json.specs.Data.{no_members, put};
ghost use Rattle.serde_json.specs.Read.{of_json, of_items, of_members, converted, read as read_text};
ghost use Rattle.dual_json.specs.Kept.{is_wanted, keep, keep_items, keep_members};
ghost use Rattle.dual_json.specs.Values.{value_data, items_data, members_data};

use crate::scalar::scalar_of;
use crate::value::Value;
use crate::wanted::Wanted;
use json::{Error, Reader, Scratch, Token};
use std::alloc::Global;

/// The largest depth to which arrays and objects may nest, as in `serde_json`.
const MAX_DEPTH: usize = 127;

/// Parses a JSON text, and keeps the wanted members of its objects. The scratch buffer receives texts
/// whose escapes are decoded.
///
/// # Errors
///
/// - `Invalid`: the text is no JSON, or nests deeper than 127.
/// - `OutOfMemory`: there was no memory.
pub fn parse<'t>(
    alloc: Global,
    text: &'t str,
    scratch: &'t mut Scratch,
    wanted: Wanted<'_>,
) -> Result<Value<'t>, Error>
    ensures ok { IfOk result (λ v. option_map (keep (is_wanted wanted.entry)) (read_text text.now) ≡ Some (value_data v)) }
    ensures err { result ≡ Err Error.Invalid → read_text text.now ≡ None }
{
    let Ok(mut reader) = Reader::new(text, scratch) else {
        return Err(Error::OutOfMemory);
    };
    let value = match read(alloc, &mut reader, wanted, MAX_DEPTH, 1) {
        Ok(value) => value,
        Err(error) => return Err(error),
    };
    if reader.next().is_some() {
        drop(value);
        return Err(Error::Invalid);
    }
    Ok(value)
}

/// Reads the next value. `depth` is the number of levels that may still be opened. `room` is the
/// number of items or members for which an array or an object gets memory at first.
#[cycle(read)]
#[inline(always)]
fn read<'t>(
    alloc: Global,
    reader: &mut Reader<'t>,
    wanted: Wanted<'_>,
    depth: usize,
    room: usize,
) -> Result<Value<'t>, Error>
    ensures ok { IfOk result
        (λ v. parse_map (keep (is_wanted wanted.entry)) (converted of_json (value depth reader.old)) ≡ Some (value_data v, reader.new)) }
    ensures shorter { OnOk result (length reader.new < length reader.old) }
    ensures err { result ≡ Err Error.Invalid → converted of_json (value depth reader.old) ≡ None }
{
    match reader.next() {
        Some(token) => match token {
            Token::BeginArray => {
                if depth == 0 {
                    return Err(Error::Invalid);
                }
                Ok(Value::Array(read_items(alloc, reader, wanted, depth - 1, room)?))
            }
            Token::BeginObject => {
                if depth == 0 {
                    return Err(Error::Invalid);
                }
                Ok(Value::Object(read_members(alloc, reader, wanted, depth - 1, room)?))
            }
            _ => scalar_of(token).ok_or(Error::Invalid),
        },
        None => Err(Error::Invalid),
    }
}

/// Reads the items of an array, up to and including its end. An item gets memory for as many parts
/// as the item before it has, since most arrays hold items of one shape.
#[cycle(read)]
#[inline(never)]
fn read_items<'t>(
    alloc: Global,
    reader: &mut Reader<'t>,
    wanted: Wanted<'_>,
    depth: usize,
    room: usize,
) -> Result<Vec<Value<'t>>, Error>
    ensures ok { IfOk result
        (λ v. parse_map (keep_items (is_wanted wanted.entry)) (converted of_items (items (value depth) (length reader.old) reader.old))
        ≡ Some (items_data v.items, reader.new)) }
    ensures shorter { OnOk result (length reader.new < length reader.old) }
    ensures err { result ≡ Err Error.Invalid
        → converted of_items (items (value depth) (length reader.old) reader.old) ≡ None }
{
    let mut found = Vec::with_capacity(alloc, room)?;
    let mut parts = 1;
    'items: while !reader.take_end_array() {
        let item = read(alloc, reader, wanted, depth, parts)?;
        parts = parts_of(&item);
        push(&mut found, item)?;
    }
    found.shrink_to_fit();
    Ok(found)
}

/// Reads the members of an object, up to and including its end, and keeps the wanted ones.
#[cycle(read)]
#[inline(never)]
fn read_members<'t>(
    alloc: Global,
    reader: &mut Reader<'t>,
    wanted: Wanted<'_>,
    depth: usize,
    room: usize,
) -> Result<Vec<(&'t str, Value<'t>)>, Error>
    ensures ok { IfOk result
        (λ v. parse_map (keep_members (is_wanted wanted.entry)) (converted (λ ms. of_members ms no_members)
        (members (value depth) (length reader.old) reader.old))
        ≡ Some (members_data v.items, reader.new)) }
    ensures shorter { OnOk result (length reader.new < length reader.old) }
    ensures err { result ≡ Err Error.Invalid
        → converted (λ ms. of_members ms no_members)
        (members (value depth) (length reader.old) reader.old) ≡ None }
{
    let mut found = Vec::with_capacity(alloc, room)?;
    'members: while let Some(key) = reader.next_key()? {
        let member = read(alloc, reader, wanted, depth, 1)?;
        add_member(&mut found, wanted, key, member)?;
    }
    found.shrink_to_fit();
    Ok(found)
}

/// Returns the number of items or members, at most 64, or 1 for a value without parts.
fn parts_of(value: &Value<'_>) -> usize {
    match value {
        Value::Array(items) => items.len().min(64),
        Value::Object(members) => members.len().min(64),
        _ => 1,
    }
}

/// Appends a member if it is wanted, and drops it otherwise.
#[inline(always)]
fn add_member<'t>(
    found: &mut Vec<(&'t str, Value<'t>)>,
    wanted: Wanted<'_>,
    key: &'t str,
    member: Value<'t>,
) -> Result<(), Error>
    ensures ok { OnOk result (members_data found.new.items
        ≡ cond (is_wanted wanted.entry key.now) (put key.now (value_data member.entry) (members_data found.old.items)) (members_data found.old.items)) }
    ensures err { OnErr result (result ≡ Err Error.OutOfMemory) }
{
    if wanted.has(key) {
        push(found, (key, member))
    } else {
        Ok(())
    }
}

fn push<T: Drop>(found: &mut Vec<T>, item: T) -> Result<(), Error>
    ensures ok { OnOk result (found.new.items ≡ found.old.items ++ item ∷ []) }
    ensures err { OnErr result (result ≡ Err Error.OutOfMemory) }
{
    match found.push(item) {
        Ok(()) => Ok(()),
        Err(_) => Err(Error::OutOfMemory),
    }
}
