//! Bytes in hexadecimal digits.
ghost use Rattle.std.specs.Prelude.{◌≡◌, ◌≤◌, length};
ghost use Rattle.hex.specs.Hex.{encode_lower};

use std::str;

/// Room for the digits of eight bytes.
#[derive(Clone, Copy, Debug)]
pub(crate) struct HexDigits {
    digits: [u8; 16],
}

impl HexDigits {
    pub(crate) fn new() -> HexDigits {
        HexDigits { digits: [b'0'; 16] }
    }

    /// Two digits for each of these bytes, in lower case.
    pub(crate) fn format(&mut self, bytes: &[u8]) -> &str
        requires { length bytes.now ≤ 8 }
        ensures { result.now ≡ encode_lower bytes.now }
    {
        self.digits = [b'0'; 16];
        let digits = &mut self.digits[..2 * bytes.len()];
        let _ = hex::encode_to_slice(bytes, digits);
        str::from_utf8(digits).unwrap()
    }
}
