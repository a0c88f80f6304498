ghost use Rattle.std.specs.Prelude.{◌≡◌, get_or};
ghost use Rattle.rows.specs.Joined.{is_joined};

/// The start and end nodes of a link, 0 where there is no such link.
fn ends_of(ends: &[(u32, u32)], link: u32) -> (u32, u32)
    ensures { result ≡ get_or ends.now link (0, 0) }
{
    match ends.get(link as usize) {
        Some(ends) => *ends,
        None => (0, 0),
    }
}

/// Whether each link of a route begins where the one before it ends, by the start and end nodes of all links.
#[tactic(auto, unfolding(crate::specs::Joined::is_joined))]
pub fn is_joined(ends: &[(u32, u32)], route: &[u32]) -> bool
    ensures { result ≡ is_joined ends.now route.now }
{
    let [first, after @ ..] = route else {
        return true;
    };
    let mut link = *first;
    let mut rest = after;
    while let [next, after @ ..] = rest {
        if ends_of(ends, link).1 != ends_of(ends, *next).0 {
            return false;
        }
        link = *next;
        rest = after;
    }
    true
}
