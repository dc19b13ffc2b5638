//! The three train types of a demo.
ghost use Rattle.std.specs.Prelude.{◌≡◌, ◌≤◌};
ghost use Rattle.optra_demo.specs.Kinds.{extra_of, kind_at, kind_name};

/// A train type.
#[derive(Clone, Copy, Debug, PartialEq, Eq)]
pub enum Kind {
    /// The fastest.
    Ic,
    /// Two minutes a segment slower.
    Re,
    /// Four minutes a segment slower.
    Fr,
}

/// The type at a position; the last one past it.
pub fn kind_at(place: u32) -> Kind
    ensures { result ≡ kind_at place }
{
    match place {
        0 => Kind::Ic,
        1 => Kind::Re,
        _ => Kind::Fr,
    }
}

/// What it is called.
pub fn kind_name(kind: Kind) -> &'static str
    ensures { result.now ≡ kind_name kind }
{
    match kind {
        Kind::Ic => "ic",
        Kind::Re => "re",
        Kind::Fr => "fr",
    }
}

/// The minutes that it takes beyond those of a segment.
pub fn extra_of(kind: Kind) -> u64
    ensures value { result ≡ extra_of kind }
    ensures most { result ≤ 4 }
{
    match kind {
        Kind::Ic => 0,
        Kind::Re => 2,
        Kind::Fr => 4,
    }
}
