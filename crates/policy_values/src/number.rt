//! Numbers: of JSON, or as texts with digits of base 16.
ghost use Rattle.std.specs.Prelude.{◌≡◌};
ghost use Rattle.serde_json.specs.View.{view};
ghost use Rattle.policy_values.specs.Kinds.{byte_of, number_of};

use serde_json::Value;
use text_words::based;

/// The number below 2^64 that a value is: a JSON number of digits alone, or a text such as
/// `16#00ff_ff00#`.
pub fn number_of(value: &Value) -> Option<u64>
    ensures { result ≡ number_of (view value.now) }
{
    match value {
        Value::Number(n) => n.as_u64(),
        Value::String(text) => based(text.as_bytes()),
        _ => None,
    }
}

/// The number below 256 that a value is.
pub fn byte_of(value: &Value) -> Option<u8>
    ensures { result ≡ byte_of (view value.now) }
{
    number_of(value).and_then(|n| if n < 256 { Some(n as u8) } else { None })
}
