use crate::numbers::LinkNumbers;
use fixed_flow::Credit;
use std::collections::VecDeque;
use std::marker::Model;
use traffic::Row;

/// A link: its numbers, its four lists, each in order, and its credit, with the seconds whose gains it has. The least second of the rows
/// of its bay is kept beside them, so that a bay is looked through only where somebody leaves it.
#[derive(Drop)]
pub struct LinkState {
    pub(crate) numbers: LinkNumbers,
    pub(crate) credit: Credit,
    pub(crate) raised: u32,
    pub(crate) queue: VecDeque<Row>,
    pub(crate) buffer: VecDeque<Row>,
    pub(crate) wait: VecDeque<Row>,
    pub(crate) bay: Vec<Row>,
    pub(crate) bay_due: Option<u32>,
}

impl Model for LinkState {
    ghost use Rattle.queue_link.specs.{Links.LinkView, Views.link_view, Views.link_invariant};

    ghost Value = { LinkView };

    ghost view = { link_view };

    ghost invariant = { link_invariant };
}
