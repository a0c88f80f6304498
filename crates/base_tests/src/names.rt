//! Names with their numbers, and copies of lists.

use events::{Added, Book, Calls, Event, EventList, Key, More, Name, Names, Route, StopCall, Word};
use std::alloc::Global;

/// What comes of adding a text as a name, where it is one and there is memory.
fn added(alloc: Global, names: &mut Names, text: &str) -> Option<Added> {
    if names.len() >= 1000 {
        return None;
    }
    match Name::read(alloc, text.as_bytes()) {
        Ok(Some(name)) => names.add(name).ok(),
        _ => None,
    }
}

/// Texts that are added in turn, and what comes of each.
static ADDED: [(&str, Option<Added>); 5] = [
    ("x", Some(Added::New(0))),
    ("y", Some(Added::New(1))),
    ("x", Some(Added::Held(0))),
    ("a b", None),
    ("xy", Some(Added::New(2))),
];

/// Adds the texts to the names, and gives the first of which something else comes.
fn first_other(alloc: Global, names: &mut Names) -> Option<&'static str> {
    for &(text, wanted) in &ADDED {
        if added(alloc, names, text) != wanted {
            return Some(text);
        }
    }
    None
}

/// Whether these are the three names of the texts above.
fn are_three(names: &Names) -> bool {
    names.len() == 3
        && names.get(2) == b"xy".as_slice()
        && names.find(b"y") == Some(1)
        && names.find(b"z").is_none()
}

/// Whether the names and a copy of them are those three.
fn are_copied(names: &Names) -> bool {
    match names.try_clone() {
        Ok(copy) => are_three(names) && are_three(&copy),
        Err(_) => false,
    }
}

#[test]
fn numbers_of_names(rt: HostRuntime) {
    let mut names = Names::new(rt.alloc());
    assert!(rt; names.is_empty());
    assert_eq!(rt; first_other(rt.alloc(), &mut names), None);
    assert!(rt; are_copied(&names));
}

fn is_route_copied(alloc: Global) -> bool {
    let Ok(rows) = Vec::from_slice(alloc, &[4, 1]) else {
        return false;
    };
    match (Route { rows }).try_clone() {
        Ok(copy) => copy.rows.as_slice() == [4, 1].as_slice(),
        Err(_) => false,
    }
}

const CALL: StopCall = StopCall {
    stop: 1,
    link: 2,
    offset: 30,
    wait: true,
};

fn are_calls_copied(alloc: Global) -> bool {
    let Ok(rows) = Vec::from_slice(alloc, &[CALL]) else {
        return false;
    };
    match (Calls { rows }).try_clone() {
        Ok(copy) => copy.rows.as_slice() == [CALL].as_slice(),
        Err(_) => false,
    }
}

const EVENT: Event = Event {
    key: Key {
        second: 5,
        phase: 3,
        number: 7,
        index: 0,
    },
    word: Word::LeftLink,
    person: None,
    vehicle: None,
    link: Some(2),
    more: More::Nothing,
};

fn are_events_copied(alloc: Global) -> bool {
    let Ok(rows) = Vec::from_slice(alloc, &[EVENT]) else {
        return false;
    };
    match (EventList { rows }).try_clone() {
        Ok(copy) => copy.rows.as_slice() == [EVENT].as_slice(),
        Err(_) => false,
    }
}

/// One name.
fn named(alloc: Global, text: &str) -> Names {
    let mut names = Names::new(alloc);
    let _ = added(alloc, &mut names, text);
    names
}

fn book_of(alloc: Global) -> Book {
    Book {
        persons: named(alloc, "ann"),
        links: named(alloc, "a_1"),
        kinds: named(alloc, "home"),
        stops: named(alloc, "s-0"),
        lines: named(alloc, "L1"),
        departures: named(alloc, "d6"),
    }
}

fn is_book(book: &Book) -> bool {
    book.persons.find(b"ann") == Some(0)
        && book.links.find(b"a_1") == Some(0)
        && book.kinds.find(b"home") == Some(0)
        && book.stops.find(b"s-0") == Some(0)
        && book.lines.find(b"L1") == Some(0)
        && book.departures.find(b"d6") == Some(0)
}

fn let_go(_book: Book) {}

/// Whether a copy of a book has the names of each of its lists.
fn is_book_copied(book: &Book) -> bool {
    match book.try_clone() {
        Ok(copy) => {
            let is_copied = is_book(&copy);
            let_go(copy);
            is_copied
        }
        Err(_) => false,
    }
}

#[test]
fn copies_of_lists(rt: HostRuntime) {
    assert!(rt; is_route_copied(rt.alloc()));
    assert!(rt; are_calls_copied(rt.alloc()));
    assert!(rt; are_events_copied(rt.alloc()));
    let book = book_of(rt.alloc());
    assert!(rt; is_book_copied(&book));
    let_go(book);
}
