//! Which nodes of a graph are ends, lent to be read.
use std::marker::Model;

/// For each node whether it is an end. None is before the first one.
#[derive(Drop)]
pub(crate) struct Ends<'a> {
    pub(crate) flags: &'a [bool],
    pub(crate) first: u32,
}

impl<'a> Model for Ends<'a> {
    ghost use Rattle.std.specs.Prelude.{List, Bool};
    ghost use Rattle.optra_dag.specs.GraphParts.{ComeLate};

    ghost Value = { List Bool };

    ghost view = { λ e. e.flags.now };

    ghost invariant = { λ e. ComeLate e.flags.now e.first };
}
