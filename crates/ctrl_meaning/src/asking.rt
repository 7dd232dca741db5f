ghost use Rattle.std.specs.Prelude.{◌≡◌};
ghost use Rattle.weighing.specs.Queries.{noted};

/// The place found so far, or this one where it is the first with the wanted answer.
pub fn noted(found: Option<u32>, here: u32, wanted: bool) -> Option<u32>
    ensures { result ≡ noted found here wanted }
{
    match found {
        Some(place) => Some(place),
        None => { if wanted { Some(here) } else { None } }
    }
}
