//! The events of a day on their way to events.csv.

ghost use Rattle.std.specs.Prelude.{◌≡◌, ◌++◌, List, OnOk, IfOk};
ghost use Rattle.events.specs.{Lines.AreInBook, Lines.event_lines, declared.event.Event.Event};
ghost use Rattle.scoring.specs.Tables.{scoring_rows};
ghost use Rattle.event_handler.specs.Handling.{kinds_of, persons_of, links_in, HasHandled, CanHandle};
ghost use Rattle.event_writer.specs.Writing.{IsWritten, CanTake, AreWritten};

use crate::source::EventSource;
use edge_files::{OutFile, Outputs, write_whole};
use event_handler::{EventHandler, SeenDay};
use events::{Book, Event, lines};
use scoring::Tables;
use std::alloc::{AllocError, Global};
use thiserror::Error;

/// Why the events of a day were not written to their end.
#[derive(Clone, Copy, Debug, PartialEq, Eq, Error)]
pub enum StreamError {
    #[error("a write failed")]
    WriteFailed,
    #[error("no memory")]
    NoMemory,
}

/// Writes a text behind the events.
///
/// # Errors
///
/// `WriteFailed`: a write failed. A front of the text was written then.
pub fn write_text<O: Outputs>(outputs: &mut O, text: &[u8]) -> Result<(), StreamError>
    ensures { IsWritten (O.written outputs.old) (O.written outputs.new) (O.faults outputs.old) (O.faults outputs.new) text.now result }
{
    match write_whole(outputs, OutFile::Events, text) {
        Ok(()) => Ok(()),
        Err(_) => Err(StreamError::WriteFailed),
    }
}

/// The lines of the next events of a day, which the handler takes.
///
/// # Errors
///
/// `AllocError`: there is no memory for them.
pub fn take_piece(
    alloc: Global,
    tables: &Tables,
    book: &Book,
    events: &[Event],
    handler: &mut EventHandler,
) -> Result<Vec<u8>, AllocError>
    requires named { AreInBook events.now book.now }
    requires handled { (taken rest : List Event) × HasHandled (scoring_rows tables.now) handler.old taken
        × CanHandle (persons_of handler.old) (links_in handler.old) (taken ++ events.now ++ rest) }
    ensures text { IfOk result (λ text. text.items ≡ event_lines events.now book.now) }
    ensures handled { OnOk result ((taken rest : List Event) → HasHandled (scoring_rows tables.now) handler.old taken
        → CanHandle (persons_of handler.old) (links_in handler.old) (taken ++ events.now ++ rest)
        → HasHandled (scoring_rows tables.now) handler.new (taken ++ events.now)) }
    ensures kinds { kinds_of handler.new ≡ kinds_of handler.old }
    ensures links { links_in handler.new ≡ links_in handler.old }
{
    let mut text = Vec::new(alloc);
    lines(events, book, &mut text)?;
    handler.handle(alloc, tables, events)?;
    Ok(text)
}

/// Writes the next events of a day, and lets the handler take them.
///
/// # Errors
///
/// `WriteFailed`: a write failed. `NoMemory`: memory was wanting. A front of their lines was written then.
pub fn stream_piece<O: Outputs>(
    alloc: Global,
    tables: &Tables,
    book: &Book,
    events: &[Event],
    handler: &mut EventHandler,
    outputs: &mut O,
) -> Result<(), StreamError>
    requires named { AreInBook events.now book.now }
    requires handled { (taken rest : List Event) × HasHandled (scoring_rows tables.now) handler.old taken
        × CanHandle (persons_of handler.old) (links_in handler.old) (taken ++ events.now ++ rest) }
    ensures written { IsWritten (O.written outputs.old) (O.written outputs.new) (O.faults outputs.old) (O.faults outputs.new)
        (event_lines events.now book.now) result }
    ensures handled { OnOk result ((taken rest : List Event) → HasHandled (scoring_rows tables.now) handler.old taken
        → CanHandle (persons_of handler.old) (links_in handler.old) (taken ++ events.now ++ rest)
        → HasHandled (scoring_rows tables.now) handler.new (taken ++ events.now)) }
    ensures kinds { kinds_of handler.new ≡ kinds_of handler.old }
    ensures links { links_in handler.new ≡ links_in handler.old }
{
    let Ok(text) = take_piece(alloc, tables, book, events, handler) else {
        return Err(StreamError::NoMemory);
    };
    write_text(outputs, &text)
}

/// Writes the lines of all events that a source gives, each piece as soon as it comes, and answers what was seen of them. The handler
/// begins with them.
///
/// # Errors
///
/// `WriteFailed`: a write failed. `NoMemory`: memory was wanting, also the source's. A front of the lines was written then.
pub fn stream_events<S: EventSource, O: Outputs>(
    alloc: Global,
    source: &mut S,
    tables: &Tables,
    book: &Book,
    handler: EventHandler,
    outputs: &mut O,
) -> Result<SeenDay, StreamError>
    requires ready { S.ready source.old }
    requires takes { CanTake (scoring_rows tables.now) book.now handler (S.rest source.old) }
    ensures { AreWritten (scoring_rows tables.now) book.now (S.rest source.old) (kinds_of handler) (links_in handler)
        (O.written outputs.old) (O.written outputs.new) (O.faults outputs.old) (O.faults outputs.new) result }
{
    let mut handler = handler;
    'pieces: loop {
        let next = match source.next_piece(alloc) {
            Ok(next) => next,
            Err(_) => return Err(StreamError::NoMemory),
        };
        let Some(piece) = next else {
            break;
        };
        match stream_piece(alloc, tables, book, &piece, &mut handler, outputs) {
            Ok(()) => {}
            Err(error) => return Err(error),
        }
    }
    match handler.finish(alloc, tables) {
        Ok(seen) => Ok(seen),
        Err(_) => Err(StreamError::NoMemory),
    }
}
