ghost use Rattle.std.specs.Prelude.{IsTrue, ◌↔◌, ◌<◌, IfSome, ℕ};
ghost use Rattle.travel_times.specs.Observed.{AreInOrder, AreOnLinks};

use events::Event;

/// Whether no event comes before an earlier one of the list.
pub fn are_in_order(events: &[Event]) -> bool
    ensures { IsTrue result ↔ AreInOrder events.now }
{
    let mut last = 0;
    for event in events {
        if event.key.second < last {
            return false;
        }
        last = event.key.second;
    }
    true
}

/// Whether an event has no link, or one of so many.
fn is_on_link(links: usize, event: &Event) -> bool
    ensures { IsTrue result ↔ IfSome event.now.link (λ link. link < links) }
{
    match event.link {
        None => true,
        Some(link) => (link as usize) < links,
    }
}

/// Whether the link of each event that has one is among so many links.
pub fn are_on_links(links: usize, events: &[Event]) -> bool
    ensures { IsTrue result ↔ AreOnLinks links events.now }
{
    for event in events {
        if !is_on_link(links, event) {
            return false;
        }
    }
    true
}
