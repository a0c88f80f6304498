ghost use Rattle.std.specs.Prelude.{◌≡◌, ◌≤◌, length, map, IfOk};
ghost use Rattle.records.specs.{Faults.Answers, Files.head_reason, Files.body_of};
ghost use Rattle.network.specs.Nodes.{node_header, node_reason, node_of, nodes_fault, node_names};

use csv::ByteRecord;
use edge_files::{Reason, RowStop};
use events::Names;
use limits::{MAX_COORDINATE, MAX_NODES};
use records::{RowReader, Table, field, holds_name, read_file, read_table, signed_in};
use rows::{NodeList, NodeRow};
use std::alloc::Global;

/// Reads the rows of nodes.csv.
#[derive(Clone, Copy)]
struct NodeReader;

impl RowReader<NodeRow> for NodeReader {
    ghost head = { λ _. head_reason node_header };

    ghost reason = { λ _. node_reason };

    ghost value = { λ _. node_of };

    fn read_rows(&self, alloc: Global, bytes: &[u8]) -> Result<Vec<ByteRecord>, RowStop> {
        read_file(alloc, bytes, &["node", "x", "y"])
    }

    #[tactic(auto, unfolding(crate::specs::Nodes::node_reason, crate::specs::Nodes::node_of))]
    fn read_row(&self, names: &Names, row: &ByteRecord) -> Result<NodeRow, Reason> {
        if row.len() != 3 {
            return Err(Reason::FieldCount);
        }
        if !holds_name(row, 0) {
            return Err(Reason::BadName);
        }
        let Some(x) = signed_in(field(row, 1), MAX_COORDINATE) else {
            return Err(Reason::BadNumber);
        };
        let Some(y) = signed_in(field(row, 2), MAX_COORDINATE) else {
            return Err(Reason::BadNumber);
        };
        if names.find(field(row, 0)).is_some() {
            return Err(Reason::Twice);
        }
        if names.len() >= MAX_NODES {
            return Err(Reason::TooMany);
        }
        Ok(NodeRow { x, y })
    }
}

/// Reads nodes.csv: a name and two coordinates a row.
///
/// The first fault is told where there is one, by row and then by the reason's number.
pub fn read_nodes(alloc: Global, bytes: &[u8]) -> Result<(Names, NodeList), RowStop>
    ensures read { Answers (λ r. r) result (nodes_fault bytes.now)
        (node_names bytes.now, map node_of (body_of bytes.now)) }
    ensures each { IfOk result (λ r. length r.0 ≡ length r.1) }
    ensures few { IfOk result (λ r. length r.1 ≤ MAX_NODES) }
{
    match read_table(alloc, bytes, &NodeReader) {
        Ok(Table { names, rows }) => Ok((names, NodeList { rows })),
        Err(stop) => Err(stop),
    }
}
