ghost use Rattle.std.specs.Prelude.{◌≡◌, map, string_bytes};
ghost use Rattle.std.specs.Option.{option_map};
ghost use Rattle.draw_trace.specs.Ordered.{ordered};
ghost use Rattle.draw_trace.specs.Requests.{request_of};

/// The names of the files.
#[derive(Clone, Copy, Debug)]
pub(crate) struct Request<'a> {
    pub question: &'a str,
    pub trace: &'a str,
}

/// What the words ask for, if they are of the form `QUEST TRACE`.
pub(crate) fn request_of(words: &[String]) -> Option<Request<'_>>
    ensures { option_map ordered result ≡ request_of (map string_bytes words.now) }
{
    match words {
        [question, trace] => Some(Request {
            question: question.as_str(),
            trace: trace.as_str(),
        }),
        _ => None,
    }
}
