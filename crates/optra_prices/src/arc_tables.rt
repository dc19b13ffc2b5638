//! What a plan keeps from node to node: rows and groups of touches with their prices, the arcs of each bid's graph, and
//! what is known of each bid.
use crate::columns::Columns;
use crate::decided::Decided;
use crate::index::Index;
use crate::levels::Levels;
use crate::numbering::{BidTable, Standing};
use crate::row_numbers::RowNumbers;
use optra_dag::Buffers;
use optra_walk::CodedRow;

/// Rows by number, and for each bid what its arcs add and which rows they touch. They are made once for a plan, and serve
/// at each of its nodes. What is known of each bid is kept twice: at zero prices, with which each price path begins, and
/// at the prices to which the last one came.
#[derive(Drop)]
pub struct ArcTables<'g, R: CodedRow> {
    pub(crate) numbering: RowNumbers<R>,
    /// The prices of rows, by number.
    pub(crate) levels: Levels,
    /// The prices of groups of touches.
    pub(crate) columns: Columns,
    pub(crate) tables: Vec<BidTable<'g>>,
    /// The decisions of the node at which the tables are, and the room beside its yes legs.
    pub(crate) decided: Decided,
    /// The bids that have each group on an arc.
    pub(crate) holders: Index,
    /// What is known of each bid at zero prices.
    pub(crate) zero: Vec<Standing>,
    /// What is known of each bid at the prices.
    pub(crate) standings: Vec<Standing>,
    /// The groups of the path of each bid whose uses of rows are counted.
    pub(crate) counted: Vec<Vec<usize>>,
    /// The dual value at the prices.
    pub(crate) value: i128,
    pub(crate) buffers: Buffers,
    /// Which bids have a group whose price fell, or may be changed by a node; lent to each step and to each node.
    pub(crate) fallen: Vec<bool>,
}
