ghost use Rattle.std.specs.Prelude.{◌≡◌};
ghost use Rattle.question_syntax.specs.Reading.{refusal};

use whole::Refusal;

/// The refusal by the rule Q of this number.
pub(crate) fn refusal(number: u8, line: u32) -> Refusal
    ensures { result ≡ refusal number line }
{
    Refusal {
        letter: b'Q',
        number,
        line,
    }
}
