ghost use Rattle.std.specs.Prelude.{◌≡◌, ◌≤◌, IfSome, map, option_map, string_bytes};
ghost use Rattle.gen_report.specs.Words.{number_in, seeded, seeded_by};
ghost use Rattle.gen_report.specs.Shown.{seed_seen};

use text_lines::natural_of;

/// The seed of a generated problem, and its number of steps, 1 to 32.
#[derive(Clone, Copy, Debug)]
pub struct Seed {
    pub seed: u64,
    pub size: u32,
}

/// The seed and the size of `gen SEED SIZE`, if the words are this, SEED is below 2^64 and SIZE from 1 to 32. Both are digits
/// with no leading zero.
pub fn seed_of(words: &[String]) -> Option<Seed>
    ensures exact { option_map seed_seen result ≡ seeded_by (map string_bytes words.now) }
    ensures within { IfSome result (λ seed. (1 ≤ seed.size) × (seed.size ≤ 32)) }
{
    match words {
        [word, seed, size] if word.as_str() == "gen" => seed_by(seed.as_str(), size.as_str()),
        _ => None,
    }
}

/// The seed and the size that the words spell, if both are in their range.
fn seed_by(seed: &str, size: &str) -> Option<Seed>
    ensures exact { option_map seed_seen result ≡ seeded seed.now size.now }
    ensures within { IfSome result (λ seed. (1 ≤ seed.size) × (seed.size ≤ 32)) }
{
    let seed = number_in(0, u128::from(u64::MAX), seed)?;
    let size = number_in(1, 32, size)?;
    Some(Seed {
        seed: seed as u64,
        size: size as u32,
    })
}

/// The number that the word spells, where it is from `low` to `high`.
fn number_in(low: u128, high: u128, word: &str) -> Option<u128>
    ensures exact { result ≡ number_in low high word.now }
    ensures within { IfSome result (λ number. (low ≤ number) × (number ≤ high)) }
{
    match natural_of(word.as_bytes()) {
        Ok(number) => {
            if low <= number && number <= high {
                Some(number)
            } else {
                None
            }
        }
        Err(_) => None,
    }
}
