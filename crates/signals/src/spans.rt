ghost use Rattle.std.specs.{List.list_all, Prelude.◌≡◌, Prelude.map, Prelude.IfOk};
ghost use Rattle.signals.specs.Spans.{text_of, span_text, has_numbers, span_of, ascend};

use limits::MAX_CYCLE;
use records::{number_in, part, parts_of};
use rows::SpanList;
use std::alloc::{AllocError, Global};

/// What the text of a span says: whether it has exactly one `-`, and the seconds around it.
#[derive(Clone, Copy)]
pub struct SpanText {
    pub is_span: bool,
    pub from: Option<u32>,
    pub until: Option<u32>,
}

#[tactic(auto, unfolding(crate::specs::Spans::text_of))]
fn text_of(parts: &[&[u8]]) -> SpanText
    ensures { result ≡ text_of (map (λ p. p.now) parts.now) }
{
    SpanText {
        is_span: parts.len() == 2,
        from: number_in(part(parts, 0), 0, MAX_CYCLE),
        until: number_in(part(parts, 1), 0, MAX_CYCLE),
    }
}

fn span_text(alloc: Global, item: &[u8]) -> Result<SpanText, AllocError>
    ensures { IfOk result (λ text. text ≡ span_text item.now) }
{
    let parts = parts_of(alloc, item, b'-')?;
    Ok(text_of(&parts))
}

/// What each text of a span says.
pub fn span_texts(alloc: Global, items: &[&[u8]]) -> Result<Vec<SpanText>, AllocError>
    ensures { IfOk result (λ texts. texts.items ≡ map span_text (map (λ item. item.now) items.now)) }
{
    let mut texts = Vec::new(alloc);
    let mut rest = items;
    while let [item, after @ ..] = rest {
        texts.push(span_text(alloc, item)?)?;
        rest = after;
    }
    Ok(texts)
}

fn has_numbers(text: &SpanText) -> bool
    ensures { result ≡ has_numbers text.now }
{
    !text.is_span || (text.from.is_some() && text.until.is_some())
}

/// Whether each that is a span has its numbers.
pub fn have_numbers(texts: &[SpanText]) -> bool
    ensures { result ≡ list_all has_numbers texts.now }
{
    texts.iter().all(|text| has_numbers(text))
}

/// Whether each is a span.
pub fn are_spans(texts: &[SpanText]) -> bool
    ensures { result ≡ list_all (λ text. text.is_span) texts.now }
{
    texts.iter().all(|text| text.is_span)
}

fn span_of(text: &SpanText) -> (u32, u32)
    ensures { result ≡ span_of text.now }
{
    (text.from.unwrap_or(0), text.until.unwrap_or(0))
}

/// The spans of the texts.
pub fn spans_of(alloc: Global, texts: &[SpanText]) -> Result<SpanList, AllocError>
    ensures { IfOk result (λ spans. spans ≡ map span_of texts.now) }
{
    let mut spans = Vec::new(alloc);
    let mut rest = texts;
    while let [text, after @ ..] = rest {
        spans.push(span_of(text))?;
        rest = after;
    }
    Ok(SpanList { rows: spans })
}

/// Whether each span has seconds, lies in the cycle and begins no earlier than the one before it ends.
#[tactic(auto, unfolding(crate::specs::Spans::ascend))]
pub fn ascend(cycle: u32, spans: &[(u32, u32)]) -> bool
    ensures { result ≡ ascend cycle 0 spans.now }
{
    let mut here = 0;
    let mut rest = spans;
    while let [span, after @ ..] = rest {
        if span.0 < here || span.1 <= span.0 || span.1 > cycle {
            return false;
        }
        here = span.1;
        rest = after;
    }
    true
}
