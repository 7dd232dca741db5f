ghost use Rattle.std.specs.Prelude.{◌≡◌, IfSome, find, length, map, option_map, string_bytes};
ghost use Rattle.ccac_cli.specs.Commands.{Takes, commands, is_called, order_of};
ghost use Rattle.ccac_cli.specs.Shown.{ordered};

use crate::admitting::admit;
use crate::auditing::audit;
use crate::checking::check;
use crate::formatting::{format, format_question};
use crate::replaying::replay;
use file_reports::{EarlyEnd, Report, Source};
use std::alloc::Global;

/// A command on files. What is particular to each stands here: its entry, and what it answers.
#[derive(Clone, Copy, Debug)]
pub enum Command {
    /// Whether a run of a controller violates a question.
    Check,
    /// Whether a certificate proves that no run of a controller violates a question.
    Audit,
    /// Whether the run of a trace is one of a controller's flows, and violates a question.
    Replay,
    /// Whether a path admits the run of a trace.
    Admit,
    /// The canonical text of a controller, or of a question about it.
    Format,
}

/// All commands on files.
pub const COMMANDS: [Command; 5] = [
    Command::Check,
    Command::Audit,
    Command::Replay,
    Command::Admit,
    Command::Format,
];

/// A command's word on a command line, its files in the order in which they are named and fetched, and how many of them have to be
/// named.
#[derive(Clone, Copy, Debug)]
pub struct Entry {
    pub word: &'static str,
    pub files: &'static [Source],
    pub least: usize,
}

impl Command {
    ghost use Rattle.std.specs.Prelude.{◌≡◌, length};
    ghost use Rattle.file_reports.specs.Fetched.{AreShort};
    ghost use Rattle.file_reports.specs.Halted.{Replies};
    ghost use Rattle.file_reports.specs.Shown.{texts_of};
    ghost use Rattle.ccac_cli.specs.Commands.{Takes, answers_of, entry_of, is_called};
    ghost use Rattle.ccac_cli.specs.Shown.{entry_seen};

    /// Its entry.
    pub fn entry(self) -> Entry
        ensures { entry_seen result ≡ entry_of self }
    {
        match self {
            Command::Check => Entry {
                word: "check",
                files: &[Source::Controller, Source::Question],
                least: 2,
            },
            Command::Audit => Entry {
                word: "audit",
                files: &[Source::Controller, Source::Question, Source::Cert],
                least: 3,
            },
            Command::Replay => Entry {
                word: "replay",
                files: &[Source::Controller, Source::Question, Source::Trace],
                least: 3,
            },
            Command::Admit => Entry {
                word: "admit",
                files: &[Source::Question, Source::Trace],
                least: 2,
            },
            Command::Format => Entry {
                word: "fmt",
                files: &[Source::Controller, Source::Question],
                least: 1,
            },
        }
    }

    /// What is answered to the bytes of its files.
    pub(crate) fn answer(self, alloc: Global, texts: &[Vec<u8>]) -> Result<Report, EarlyEnd>
        requires taken { Takes self (length texts.now) }
        requires short { AreShort (texts_of texts.now) }
        ensures { Replies (answers_of self (texts_of texts.now)) result }
    {
        match (self, texts) {
            (Command::Check, [controller, question]) => check(alloc, controller, question),
            (Command::Audit, [controller, question, cert]) => audit(
                alloc, controller, question, cert,
            ),
            (Command::Replay, [controller, question, trace]) => replay(
                alloc, controller, question, trace,
            ),
            (Command::Admit, [question, trace]) => admit(alloc, question, trace),
            (Command::Format, [controller]) => format(alloc, controller),
            (Command::Format, [controller, question]) => format_question(
                alloc, controller, question,
            ),
            _ => unreachable!(),
        }
    }

    /// Whether this word with so many names calls it.
    fn is_called(self, word: &str, count: usize) -> bool
        ensures { result ≡ is_called word.now count self }
    {
        let entry = self.entry();
        entry.word == word && entry.least <= count && count <= entry.files.len()
    }
}

/// The words of a command line: a command, and the names of its files.
#[derive(Clone, Copy, Debug)]
pub(crate) struct Order<'a> {
    pub command: Command,
    pub names: &'a [String],
}

/// The order that the words are by the table, if they are one.
pub(crate) fn order_of(words: &[String]) -> Option<Order<'_>>
    ensures exact { option_map ordered result ≡ order_of (map string_bytes words.now) }
    ensures taken { IfSome result (λ order. Takes order.command (length order.names.now)) }
{
    let (word, names) = words.split_first()?;
    let command = command_of(word.as_str(), names.len())?;
    Some(Order { command, names })
}

/// The command that this word with so many names calls, if there is one.
fn command_of(word: &str, count: usize) -> Option<Command>
    ensures exact { result ≡ find (is_called word.now count) commands }
    ensures taken { IfSome result (λ command. Takes command count) }
{
    COMMANDS
        .iter()
        .copied()
        .find(|command| command.is_called(word, count))
}
