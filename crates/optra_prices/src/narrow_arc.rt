//! An arc of a bid's graph in eight bytes.
ghost use Rattle.std.specs.Prelude.{◌≡◌, ◌<◌, pos, ◌*ℤ◌, unsigned_abs};
ghost use Rattle.optra_prices.specs.NarrowArcs.{group_of, is_open};

/// What the mark of an arc that may not be taken is greater by than its group.
pub(crate) const CLOSED: u32 = 2_147_483_648;

/// An arc by its value in cents and its mark, which is its group, and 2^31 more where it may not be taken.
#[derive(Clone, Copy)]
pub(crate) struct NarrowArc {
    pub(crate) mark: u32,
    pub(crate) cents: i32,
}

impl NarrowArc {
    /// An arc whose group is below 2^31.
    pub(crate) fn new(group: u32, cents: i32, allowed: bool) -> NarrowArc
        requires { group < CLOSED }
        ensures cents { result.cents ≡ cents }
        ensures group { group_of result.mark ≡ group }
        ensures allowed { is_open result.mark ≡ allowed }
    {
        let mark = if allowed { group } else { group + CLOSED };
        NarrowArc { mark, cents }
    }

    /// The group that it touches.
    pub(crate) fn group(&self) -> u32
        ensures { result ≡ group_of self.now.mark }
    {
        if self.allowed() {
            self.mark
        } else {
            self.mark - CLOSED
        }
    }

    /// What it adds, in thousandths of a cent.
    pub(crate) fn value(&self) -> i64
        ensures { result ≡ pos 1000 *ℤ self.now.cents }
    {
        1000 * i64::from(self.cents)
    }

    /// How many cents it adds or takes.
    pub(crate) fn size(&self) -> u32
        ensures { result ≡ unsigned_abs self.now.cents }
    {
        self.cents.unsigned_abs()
    }

    /// Whether it may be taken.
    pub(crate) fn allowed(&self) -> bool
        ensures { result ≡ is_open self.now.mark }
    {
        self.mark < CLOSED
    }
}
