//! Ids, which are indices counted from 1.

ghost use Rattle.std.specs.Prelude.{◌≡◌, ◌<◌, suc, IfSome};
ghost use Rattle.std.specs.Option.{option_map};
ghost use Rattle.club_requests.specs.Limits.{most_games};

/// The id of the element at an index, which counts from 0.
pub fn id_at(place: Option<usize>) -> Option<u32>
    requires { IfSome place (λ before. before < most_games) }
    ensures { result ≡ option_map suc place }
{
    match place {
        Some(before) => Some(before as u32 + 1),
        None => None,
    }
}
