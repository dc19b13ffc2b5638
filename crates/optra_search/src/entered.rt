//! A node at which a plan stands.
use optra_node::Node;
use optra_prices::ArcTables;
use optra_walk::CodedRow;

/// A node that was entered, the graphs of the bids, and the tables of their arcs at the node.
#[derive(Drop)]
pub struct Entered<'a, 'g, G, R: CodedRow> {
    pub node: &'a Node,
    pub graphs: &'a G,
    pub kept: &'a ArcTables<'g, R>,
}
