ghost use Rattle.std.specs.Prelude.{◌<◌, ◌-◌, ◌^◌, length, IfOk, IsErrOf, IsOkUnless};
ghost use Rattle.whole.specs.declared.answers.ReadFault.TheVariants.{NoMemory};
ghost use Rattle.whole.specs.declared.answers.Refusal.{Refusal};
ghost use Rattle.ctrl_syntax.specs.Grammar.{IsText};
ghost use Rattle.ctrl_syntax.specs.Sections.{Sections};
ghost use Rattle.ctrl_types.specs.Resolved.{RefusesUnless};
ghost use Rattle.ctrl_types.specs.Statements.{IsUnbroken};
ghost use Rattle.asked.specs.Texts.{IsControllerRefused, IsControllerText};

use ctrl_syntax::{Syntax, read};
use ctrl_types::{Controller, resolve};
use std::alloc::Global;
use whole::ReadFault;

/// The controller whose text the bytes are, with what it spells. Refused comes exactly at the first broken rule.
pub fn read_controller(alloc: Global, bytes: &[u8]) -> Result<(Syntax, Controller), ReadFault>
    requires { length bytes.now < 2 ^ 32 - 1 }
    ensures found { IfOk result (λ found. IsControllerText bytes.now found.0 found.1) }
    ensures only { (sections : Sections) → IsText bytes.now sections → IsUnbroken sections → IsOkUnless result NoMemory }
    ensures refused { (r : Refusal) → IsErrOf result (ReadFault.Refused r) → IsControllerRefused bytes.now r }
    ensures first { (r : Refusal) → IsControllerRefused bytes.now r → RefusesUnless r result }
{
    let syntax = read(alloc, bytes)?;
    let controller = resolve(alloc, &syntax)?;
    Ok((syntax, controller))
}
