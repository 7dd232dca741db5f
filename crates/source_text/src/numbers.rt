ghost use Rattle.std.specs.Prelude.{◌≡◌, true};
ghost use Rattle.text_lines.specs.Numbers.{all_digits, value};
ghost use Rattle.source_text.specs.Cutting.{saturated};

/// The number that the digits spell, or `2^32 - 1` where it exceeds that.
pub(crate) fn value_of(digits: &[u8]) -> u32
    requires { all_digits digits.now ≡ true }
    ensures { result ≡ saturated (value digits.now) }
{
    let mut value: u32 = 0;
    for byte in digits {
        let digit = u32::from(*byte - b'0');
        value = value.saturating_mul(10).saturating_add(digit);
    }
    value
}
