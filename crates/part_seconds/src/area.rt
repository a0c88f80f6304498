//! What a part has of the network, and who is there.

ghost use Rattle.std.specs.Prelude.{◌≡◌, true};
ghost use Rattle.part_seconds.specs.Resting.{IsAtRest};

use calendar::Calendar;
use part_nodes::NetworkState;
use part_persons::Persons;
use riders::Waiting;

/// What the part of a partition has. The links that end at its nodes stand in slots, ascending by number; persons, stops and nodes have a
/// row each, whosesoever they are: who is not there is nobody, at a stop on a link of another partition nobody waits, and a node of another
/// one is never woken. Only links that begin at its nodes have places.
#[derive(Drop)]
pub struct Area {
    /// The persons of the partition, and when each of them is woken.
    pub persons: Persons,
    /// The departures of each second that begin on its links, by number.
    pub departures: Calendar,
    /// Those who wait, by stop.
    pub lines: Vec<Waiting>,
    /// Its links, their places, and when links and nodes are woken.
    pub network: NetworkState,
    /// How many vehicles are in the queue of each link that begins elsewhere, by slot, as of its last turn and of what was absorbed since.
    pub queues: Vec<usize>,
}

impl Area {
    /// Whether it is seen at once that nobody has anything to do in a second: nobody is woken in it, no departure starts, and no place
    /// comes free. All five calendars are looked at first: where somebody has something to do, each of them is needed, and so their lines
    /// come from memory at once and not one after the other.
    pub fn rests(&self, second: u32) -> bool
        ensures { result ≡ true → IsAtRest second self.now }
    {
        let links = self.network.link_wakes.is_quiet(second);
        let nodes = self.network.node_wakes.is_quiet(second);
        let persons = self.persons.wakes.is_quiet(second);
        let departures = self.departures.is_quiet(second);
        let places = self.network.places.freed.is_quiet(second);
        links && nodes && persons && departures && places
    }
}
