ghost use Rattle.std.specs.Prelude.{◌≡◌, ◌<◌, ◌^◌, IsTrue, IfOk, None, Some, true, pos, nat_lt, if◌then◌else◌};
ghost use Rattle.text_lines.specs.Numbers.{all_digits, is_positive, is_spelled, value, limited, signed_by, read_negative, read_natural, read_whole};

use crate::items::ItemFault;

/// The number that the digits spell, where they are its one spelling: `Form` where they aren't, and
/// `Large` where the number exceeds `2^127 - 1`.
#[tactic(auto, using(crate::proofs::NumberLaws::spelled_digits), unfolding(crate::specs::Numbers::read_natural))]
pub fn natural_of(item: &[u8]) -> Result<u128, ItemFault>
    ensures exact { result ≡ read_natural item.now }
    ensures small { IfOk result (λ number. number < 2 ^ 127) }
{
    if !is_spelled(item) {
        return Err(ItemFault::Form);
    }
    value_of(item)
}

/// The whole number that the item spells, where it is its one spelling: `-` stands before a number
/// below 0, and nothing before another. `Form` where it isn't, and `Large` where the number exceeds
/// `2^127 - 1` in size.
#[tactic(auto, unfolding(crate::specs::Numbers::read_whole))]
pub fn whole_of(item: &[u8]) -> Result<i128, ItemFault>
    ensures { result ≡ read_whole item.now }
{
    match item {
        [b'-', digits @ ..] => negative_of(digits),
        _ => nonnegative_of(item),
    }
}

#[tactic(auto, using(std::proofs::lemmas::Int::to_z_pos))]
fn nonnegative_of(digits: &[u8]) -> Result<i128, ItemFault>
    ensures { result ≡ signed_by pos (read_natural digits.now) }
{
    Ok(natural_of(digits)? as i128)
}

#[tactic(auto, using(crate::proofs::NumberLaws::positive_digits, std::proofs::lemmas::Int::to_z_pos))]
fn negative_of(digits: &[u8]) -> Result<i128, ItemFault>
    ensures { result ≡ read_negative digits.now }
{
    if !is_positive(digits) {
        return Err(ItemFault::Form);
    }
    Ok(-(value_of(digits)? as i128))
}

#[tactic(auto, unfolding(crate::specs::Numbers::is_spelled))]
fn is_spelled(item: &[u8]) -> bool
    ensures { result ≡ is_spelled item.now }
{
    match item {
        [] => false,
        [digit] => digit.is_ascii_digit(),
        _ => is_positive(item),
    }
}

#[tactic(auto, unfolding(crate::specs::Numbers::is_positive))]
fn is_positive(item: &[u8]) -> bool
    ensures { result ≡ is_positive item.now }
{
    match item {
        [] => false,
        [first, rest @ ..] => b'1' <= *first && *first <= b'9' && are_digits(rest),
    }
}

fn are_digits(bytes: &[u8]) -> bool
    ensures { result ≡ all_digits bytes.now }
{
    bytes.iter().all(|byte| byte.is_ascii_digit())
}

/// The number of these digits, up to `2^127 - 1`.
fn value_of(digits: &[u8]) -> Result<u128, ItemFault>
    requires { all_digits digits.now ≡ true }
    ensures exact { result ≡ limited (value digits.now) }
    ensures small { IfOk result (λ number. number < 2 ^ 127) }
{
    let mut value: u128 = 0;
    for byte in digits {
        let digit = u128::from(*byte - b'0');
        if value > (i128::MAX as u128 - digit) / 10 {
            return Err(ItemFault::Large);
        }
        value = value * 10 + digit;
    }
    Ok(value)
}
