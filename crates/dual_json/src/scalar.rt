//! Scalar values of a JSON text: texts, numbers, Booleans and null.

ghost use Rattle.std.specs.Prelude.{◌≡◌, option_map};
ghost use Rattle.json.specs.Reads.{token_of};
ghost use Rattle.dual_json.specs.Scalars.{scalar};
ghost use Rattle.dual_json.specs.Values.{value_data};

use crate::number::number_of;
use crate::value::Value;
use json::Token;

/// Returns the value that one token is. Returns `None` if the token is no value, begins an array or
/// an object, or is a number too large for a float.
#[inline(always)]
pub fn scalar_of<'t>(token: Token<'t>) -> Option<Value<'t>>
    ensures { option_map value_data result ≡ scalar (token_of token.entry) }
{
    match token {
        Token::String(text) => Some(Value::String(text)),
        Token::Number(text) => match number_of(text) {
            Some(number) => Some(Value::Number(number)),
            None => None,
        },
        Token::Bool(flag) => Some(Value::Bool(flag)),
        Token::Null => Some(Value::Null),
        Token::BeginObject
        | Token::EndObject
        | Token::BeginArray
        | Token::EndArray
        | Token::Key(_)
        | Token::Bad => None,
    }
}
