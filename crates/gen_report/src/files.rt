ghost use Rattle.std.specs.Prelude.{◌≡◌, ◌≤◌, IfOk, Some, codes, length, map, string_bytes};
ghost use Rattle.ccac_ports.specs.MemFolder.{held};
ghost use Rattle.ctrl_gen.specs.Problems.{controller_text, question_text};
ghost use Rattle.gen_report.specs.Files.{Holds, check_words};
ghost use Rattle.gen_report.specs.Shown.{seed_seen};

use crate::seeds::Seed;
use ccac_ports::MemFolder;
use ctrl_gen::make;
use std::alloc::{AllocError, Global};
use whole::NoMemory;

/// A generated problem: a folder with the files `controller` and `question`, and their lengths in bytes.
#[derive(Drop)]
pub struct Problem {
    pub folder: MemFolder,
    pub controller: usize,
    pub question: usize,
}

/// The problem of a seed.
pub fn problem_of(alloc: Global, seed: Seed) -> Result<Problem, NoMemory>
    requires { (1 ≤ seed.size) × (seed.size ≤ 32) }
    ensures holds { IfOk result (λ problem. Holds (held problem.folder) (seed_seen seed)) }
    ensures controller { IfOk result (λ problem. problem.controller ≡ length (controller_text seed.seed)) }
    ensures question { IfOk result (λ problem. problem.question ≡ length (question_text seed.seed seed.size)) }
{
    let (controller, question) = make(alloc, seed.seed, seed.size)?;
    Ok(Problem {
        folder: folder_of(alloc, controller.as_slice(), question.as_slice())?,
        controller: controller.len(),
        question: question.len(),
    })
}

/// A folder in memory with the two texts.
fn folder_of(alloc: Global, controller: &[u8], question: &[u8]) -> Result<MemFolder, NoMemory>
    ensures controller { IfOk result (λ folder. held folder (codes "controller") ≡ Some controller.now) }
    ensures question { IfOk result (λ folder. held folder (codes "question") ≡ Some question.now) }
{
    let mut folder = MemFolder::new(alloc);
    folder.add("controller", controller)?;
    folder.add("question", question)?;
    Ok(folder)
}

/// The words that judge the two files.
pub fn words_to_check(alloc: Global) -> Result<Vec<String>, AllocError>
    ensures { IfOk result (λ words. map string_bytes words.items ≡ check_words) }
{
    let mut words = Vec::new(alloc);
    words.push(String::from_str(alloc, "check")?)?;
    words.push(String::from_str(alloc, "controller")?)?;
    words.push(String::from_str(alloc, "question")?)?;
    Ok(words)
}
