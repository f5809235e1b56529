//! Bytes as hex digits.
ghost use Rattle.std.specs.Prelude.{◌≡◌, ◌<◌, IfSome, slice_index};
ghost use Rattle.std.specs.Result.{result_ok};
ghost use Rattle.spread.specs.Hex.{Read, byte_of, digit_of};

use std::fmt;

// The value of a hex digit.
fn digit(b: u8) -> Option<u8>
    ensures value { result ≡ digit_of b }
    ensures small { IfSome result (λ d. d < 16) }
{
    match b {
        b'0'..=b'9' => Some(b - b'0'),
        b'a'..=b'f' => Some(b - b'a' + 10),
        b'A'..=b'F' => Some(b - b'A' + 10),
        _ => None,
    }
}

// The byte of two hex digits, if they are. A `Result`, since `try_map` takes one.
fn byte(digits: [u8; 2]) -> Result<u8, ()>
    ensures { result_ok result ≡ byte_of (digit_of (slice_index digits 0)) (digit_of (slice_index digits 1)) }
{
    let [high, low] = digits;
    Ok(digit(high).ok_or(())? * 16 + digit(low).ok_or(())?)
}

/// The 24 bytes of 48 hex digits.
pub(crate) fn bytes_of(line: &[u8]) -> Option<[u8; 24]>
    ensures { Read line.now result }
{
    let (pairs, []) = line.as_chunks::<2>() else {
        return None;
    };
    let pairs: [[u8; 2]; 24] = pairs.try_into().ok()?;
    pairs.try_map(byte).ok()
}

/// Bytes, printed as two hex digits each.
#[derive(Clone, Copy)]
pub(crate) struct Hex<'a>(pub &'a [u8]);

impl fmt::Display for Hex<'_> {
    fn fmt<W: fmt::Write>(&self, f: &mut fmt::Formatter<W>) -> fmt::Result {
        for b in self.0 {
            write!(f, "{b:02x}")?;
        }
        Ok(())
    }
}
