//! The arguments after the command, in pairs of a name and a value.

ghost use Rattle.std.specs.Prelude.{◌≡◌, ◌<◌, [], None, length, option_map, find, bytes_eq};
ghost use Rattle.std.specs.List.{slice_index_or};
ghost use Rattle.audit_model.specs.Below.{any_below};
ghost use Rattle.audit_model.specs.declared.setting.Command.TheVariants as command;
ghost use Rattle.audit_words.specs.ArgumentBytes.{pairs_in};
ghost use Rattle.audit_statement.specs.Words as definition;

use crate::names::default_of;
use audit_model::fault::Name;

/// Returns the number of pairs. The last pair may have no value.
pub fn count(words: &[String]) -> usize
    ensures { result ≡ length (pairs_in words.now) }
{
    words.len().div_ceil(2)
}

/// Returns the first word of the pair with the index `place`.
pub fn name_at(words: &[String], place: usize) -> &str
    requires { place < length (pairs_in words.now) }
    ensures { result.now ≡ (slice_index_or (pairs_in words.now) place ([], None)).0 }
{
    words[2 * place].as_str()
}

/// Returns the second word of the pair with the index `place`, or `None` for a last pair without a
/// value.
pub fn value_at(words: &[String], place: usize) -> Option<&str>
    requires { place < length (pairs_in words.now) }
    ensures { option_map (λ s. s.now) result ≡ (slice_index_or (pairs_in words.now) place ([], None)).1 }
{
    if 2 * place + 1 < words.len() {
        Some(words[2 * place + 1].as_str())
    } else {
        None
    }
}

/// Returns true if an earlier pair has the first word of the pair with the index `place`.
pub fn is_repeated(words: &[String], place: usize) -> bool
    requires { place < length (pairs_in words.now) }
    ensures { result ≡ definition.is_repeated command.Check (pairs_in words.now) place }
{
    for j in 0..place {
        if name_at(words, j) == name_at(words, place) {
            return true;
        }
    }
    false
}

/// Returns the value of the first pair with this name.
pub fn find_value(words: &[String], name: Name) -> Option<&str>
    ensures { option_map (λ s. s.now) result ≡ definition.given command.Check (pairs_in words.now) name }
{
    for k in 0..count(words) {
        if name_at(words, k) == name.text() {
            return value_at(words, k);
        }
    }
    None
}

/// Returns the value of the name, or its default.
pub fn value_of(words: &[String], name: Name) -> Option<&str>
    ensures { option_map (λ s. s.now) result ≡ definition.given_or_default command.Check (pairs_in words.now) name }
{
    match find_value(words, name) {
        Some(value) => Some(value),
        None => default_of(name),
    }
}

/// Returns the value of the name, or its default, or the empty text.
pub fn text_of(words: &[String], name: Name) -> &str
    ensures { result.now ≡ definition.text_of command.Check (pairs_in words.now) name }
{
    value_of(words, name).unwrap_or("")
}
