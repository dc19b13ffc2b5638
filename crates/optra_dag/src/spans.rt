//! Where the arcs of one node stand among all arcs.
ghost use Rattle.std.specs.Prelude.{◌≡◌};
ghost use Rattle.optra_dag.specs.Spans.{span_of};

/// The arcs of one node, which stand together: those from `start` on, up to before `stop`. A node
/// without arcs has an empty span.
#[derive(Clone, Copy)]
pub(crate) struct Span {
    pub(crate) start: u32,
    pub(crate) stop: u32,
}

impl Span {
    /// The span of a node among so many arcs, by the starts of the nodes.
    pub(crate) fn of(starts: &[u32], arcs: u32, node: u32) -> Span
        ensures { result ≡ span_of starts.now arcs node }
    {
        let node = node as usize;
        Span {
            start: starts.get(node).copied().unwrap_or(arcs),
            stop: starts.get(node + 1).copied().unwrap_or(arcs),
        }
    }
}
