ghost use Rattle.std.specs.Prelude.{◌≡◌, map, string_bytes};
ghost use Rattle.std.specs.Option.{option_map};
ghost use Rattle.problem_smt.specs.Ordered.{ordered};
ghost use Rattle.problem_smt.specs.Requests.{request_of};

/// What is written of a problem.
#[derive(Clone, Copy, Debug)]
pub(crate) enum Kind {
    /// Its SMT-LIB 2 text.
    Problem,
    /// The line of its sizes.
    Counts,
}

/// What is to be written, and the names of the files.
#[derive(Clone, Copy, Debug)]
pub(crate) struct Request<'a> {
    pub kind: Kind,
    pub controller: &'a str,
    pub question: &'a str,
}

/// What the words ask for, if they are of the form `[--counts] CTRL QUEST`.
pub(crate) fn request_of(words: &[String]) -> Option<Request<'_>>
    ensures { option_map ordered result ≡ request_of (map string_bytes words.now) }
{
    match words {
        [controller, question] if controller.as_str() != "--counts" => Some(Request {
            kind: Kind::Problem,
            controller: controller.as_str(),
            question: question.as_str(),
        }),
        [word, controller, question] if word.as_str() == "--counts" => Some(Request {
            kind: Kind::Counts,
            controller: controller.as_str(),
            question: question.as_str(),
        }),
        _ => None,
    }
}
