//! The canonical text of questions.
ghost use Rattle.std.specs.Prelude.{◌≡◌, ◌++◌, List, ℕ, IfOk, OnOk, flat_map, codes};
ghost use Rattle.std.specs.Fmt.{decimal};
ghost use Rattle.ctrl_syntax.specs.Printed.{line_text};
ghost use Rattle.question_syntax.specs.Sections.{wanted_of, all_wanted_of, sections_of};
ghost use Rattle.question_syntax.specs.Grammar.{IsText};
ghost use Rattle.question_syntax.specs.Printed.{count_text, num_of, rate_text, buffer_text, setting_text, wanted_text, printed, SpellsAgain};

use crate::syntax::{ConditionLine, QuestionSyntax};
use condition_syntax::{Num, put_condition, put_number};
use path_server::Setting;
use std::alloc::{AllocError, Global};
use whole::{NoMemory, Pair};

fn put_count(alloc: Global, out: &mut Vec<u8>, title: &[u8], count: u64) -> Result<(), AllocError>
    ensures { OnOk result (out.new.items ≡ out.old.items ++ line_text (count_text title.now) count) }
{
    out.extend_from_slice(title)?;
    let digits = format!(in alloc; "{count}")?;
    out.extend_from_slice(digits.as_bytes())?;
    out.extend_from_slice(b"\n")
}

/// The fraction as a number.
fn num_of(fraction: Pair) -> Num
    ensures { result ≡ num_of fraction }
{
    Num {
        num: fraction.num,
        den: fraction.den,
    }
}

fn put_rate(alloc: Global, out: &mut Vec<u8>, rate: Pair) -> Result<(), AllocError>
    ensures { OnOk result (out.new.items ≡ out.old.items ++ line_text rate_text rate) }
{
    out.extend_from_slice(b"rate ")?;
    put_number(alloc, out, num_of(rate))?;
    out.extend_from_slice(b"\n")
}

fn put_buffer(alloc: Global, out: &mut Vec<u8>, buffer: Option<Pair>) -> Result<(), AllocError>
    ensures { OnOk result (out.new.items ≡ out.old.items ++ line_text buffer_text buffer) }
{
    match buffer {
        None => out.extend_from_slice(b"buffer none\n"),
        Some(size) => {
            out.extend_from_slice(b"buffer ")?;
            put_number(alloc, out, num_of(size))?;
            out.extend_from_slice(b"\n")
        }
    }
}

/// The lines in front of the conditions.
#[tactic(auto, unfolding(crate::specs::Printed::setting_text))]
fn put_setting(alloc: Global, out: &mut Vec<u8>, setting: Setting) -> Result<(), AllocError>
    ensures { OnOk result (out.new.items ≡ out.old.items ++ setting_text setting) }
{
    put_count(alloc, out, b"flows ", u64::from(setting.flows))?;
    put_count(alloc, out, b"steps ", u64::from(setting.steps))?;
    put_rate(alloc, out, setting.path.rate)?;
    put_count(alloc, out, b"jitter ", u64::from(setting.path.jitter))?;
    put_count(alloc, out, b"rtt ", u64::from(setting.rtt))?;
    put_buffer(alloc, out, setting.path.buffer)?;
    put_count(alloc, out, b"budget ", setting.budget)
}

/// `assume COND` or `require COND`
fn put_wanted(
    alloc: Global,
    out: &mut Vec<u8>,
    title: &[u8],
    line: &ConditionLine,
) -> Result<(), AllocError>
    ensures { OnOk result (out.new.items ≡ out.old.items ++ line_text (wanted_text title.now) (wanted_of line.now)) }
{
    out.extend_from_slice(title)?;
    put_condition(alloc, out, &line.cond)?;
    out.extend_from_slice(b"\n")
}

fn put_assumes(
    alloc: Global,
    out: &mut Vec<u8>,
    assumes: &[ConditionLine],
) -> Result<(), AllocError>
    ensures { OnOk result (out.new.items ≡ out.old.items ++ flat_map (line_text (wanted_text (codes "assume "))) (all_wanted_of assumes.now)) }
{
    for assume in assumes {
        put_wanted(alloc, out, b"assume ", assume)?;
    }
    Ok(())
}

/// The canonical text: one space between tokens, no comments, no skipped lines, and numbers as they were written but for
/// leading zeros and a denominator of 1. Reading gives the syntax again but for its line numbers, whatever text it was
/// read from.
pub fn print_syntax(alloc: Global, syntax: &QuestionSyntax) -> Result<Vec<u8>, NoMemory>
    ensures exact { IfOk result (λ out. out.items ≡ printed (sections_of syntax.now)) }
    ensures again { (bytes : List ℕ) → IsText bytes (sections_of syntax.now) → IfOk result (λ out. SpellsAgain out.items (sections_of syntax.now)) }
{
    text_bytes(alloc, syntax)
}

#[tactic(auto, unfolding(crate::specs::Printed::printed))]
fn text_bytes(alloc: Global, syntax: &QuestionSyntax) -> Result<Vec<u8>, NoMemory>
    ensures { IfOk result (λ out. out.items ≡ printed (sections_of syntax.now)) }
{
    let mut out = Vec::new(alloc);
    out.extend_from_slice(b"ccac-question 1\n")?;
    put_setting(alloc, &mut out, syntax.setting)?;
    put_assumes(alloc, &mut out, syntax.assumes.as_slice())?;
    put_wanted(alloc, &mut out, b"require ", &syntax.require)?;
    out.extend_from_slice(b"end\n")?;
    Ok(out)
}
