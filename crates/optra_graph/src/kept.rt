//! The places that are kept, and their nodes.
ghost use Rattle.optra_graph.specs.Nodes.{AreNumbers};

/// Whether each place is kept. A place that is kept has the number of its node, which is one more than the number of kept
/// places before it, and the end has the next number, also where it is not kept. What stands at other places, or behind the
/// end, is never read.
#[derive(Clone, Copy)]
pub struct Kept<'k> {
    pub flags: &'k [bool],
    pub numbers: &'k [u32],
    pub ghost numbered: { AreNumbers flags.now numbers.now },
}
