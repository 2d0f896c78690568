//! A number that keys share which are one key. Maps are looked up by it, since a key cannot be hashed as a level compares it.

ghost use Rattle.std.specs.Prelude.{◌≡◌};
ghost use Rattle.same_keys.specs.Print.{print_of, text_print};

use desk_values::{Value, without_trailing_spaces};

/// A number of 64 bits that keys share which are one key, at each level: of a text, its bytes but for the spaces at its end (FNV). Keys that
/// differ may share it too.
pub fn print_of(key: &Value) -> u64
    ensures { result ≡ print_of key.now }
{
    match key {
        Value::Null => 0,
        Value::Int(number) => number.cast_unsigned(),
        Value::Text(text) => text_print(without_trailing_spaces(text.as_str().as_bytes())),
        Value::Row(number) | Value::Draw(_, number) => *number,
    }
}

// The print of these bytes.
fn text_print(bytes: &[u8]) -> u64
    ensures { result ≡ text_print 14695981039346656037 bytes.now }
{
    let mut print: u64 = 14_695_981_039_346_656_037;
    for byte in bytes {
        print = print
            .wrapping_mul(1_099_511_628_211)
            .wrapping_add(u64::from(*byte));
    }
    print
}
