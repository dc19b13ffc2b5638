//! Two families of rows together.
ghost use Rattle.std.specs.Prelude.{◌≡◌, ℕ, ◌+◌, ◌<◌, ◌≤◌, length, slice_get, List};
ghost use Rattle.optra_network.specs.Net.{Net, IsProper};
ghost use Rattle.optra_network.specs.declared.TypeId.{TypeId as Kind};
ghost use Rattle.optra_walk.specs.declared.Leg.{Leg as Step};
ghost use Rattle.optra_walk.specs.Families.{IsUsable};
ghost use Rattle.optra_rows.specs.EitherCodes.{past};
ghost use Rattle.optra_rows.specs.Eithers.{AreFew};

use optra_network::{Network, TypeId};
use optra_walk::{CodedRow, Leg, RowFamily};

/// A row of the first or of the second family. All of the first are below all of the second.
#[derive(Clone, Copy, Debug, PartialEq, Eq, PartialOrd, Ord)]
pub enum Either<P, Q> {
    /// A row of the first family.
    First(P),
    /// A row of the second family.
    Second(Q),
}

/// Two families as one. It has the rows of both, and its rule is that both rules hold.
#[derive(Drop)]
pub struct Both<A: RowFamily, B: RowFamily> {
    /// The family whose rows come first.
    pub first: A,
    /// The family whose rows come after them.
    pub second: B,
    ghost few: { A.most first + B.most second ≤ 8192 },
}

impl<A: RowFamily, B: RowFamily> Both<A, B> {
    /// Two families together. It takes no memory. A leg must use at most 8,192 rows of the two together.
    pub fn new(first: A, second: B) -> Both<A, B>
        requires { A.most first + B.most second ≤ 8192 }
        ensures first { result.first ≡ first }
        ensures second { result.second ≡ second }
    {
        Both { first, second }
    }
}

impl<A: RowFamily, B: RowFamily> RowFamily for Both<A, B> {
    type Row = Either<A::Row, B::Row>;

    ghost use Rattle.optra_rows.specs.Eithers.{both_rows, both_lists};
    ghost use Rattle.optra_rows.specs.EitherLemmas.{lists_both, few_together, few_of_both, fits_both, caps_fit, none_of_both};
    ghost use Rattle.std.specs.Prelude.{refl};

    ghost rows_of = { λ f net. both_rows (A.rows_of f.first net) (B.rows_of f.second net) };

    ghost rows_used = { λ f net kind leg. both_lists (A.rows_used f.first net kind leg) (B.rows_used f.second net kind leg) };

    ghost most = { λ f. A.most f.first + B.most f.second };

    ghost KeepsRule = { λ f net entries. A.KeepsRule f.first net entries × B.KeepsRule f.second net entries };

    ghost lists_rows = { λ f net kind leg u.
        lists_both A.Row.cmp B.Row.cmp ⟦<Either<A::Row, B::Row> as Ord>⟧.cmp (λ a b. refl) (λ a b. refl) (λ a b. refl)
        (A.rows_of f.first net) (B.rows_of f.second net) kind leg
        (A.rows_used f.first net kind leg) (B.rows_used f.second net kind leg)
        (A.lists_rows f.first net kind leg u) (B.lists_rows f.second net kind leg u)
        (few_together (A.uses_few f.first net kind leg u) (B.uses_few f.second net kind leg u) f.few) };

    ghost uses_few = { λ f net kind leg u.
        few_of_both (A.uses_few f.first net kind leg u) (B.uses_few f.second net kind leg u) };

    ghost capacity_fits = { λ f net row p is. caps_fit (A.rows_of f.first net) (B.rows_of f.second net) (λ r. A.capacity_fits f.first net r p) (λ r. B.capacity_fits f.second net r p) row is };

    ghost unusable_uses_none = { λ f net kind leg row may_not. none_of_both (A.rows_of f.first net) (B.rows_of f.second net) kind leg (λ r. A.unusable_uses_none f.first net kind leg r may_not) (λ r. B.unusable_uses_none f.second net kind leg r may_not) row };

    ghost rule_by_rows = { λ f net entries p all. fits_both (A.rows_of f.first net) (B.rows_of f.second net) entries _ _ (A.rule_by_rows f.first net entries p all) (B.rule_by_rows f.second net entries p all) };

    fn is_row(&self, net: &Network, row: Either<A::Row, B::Row>) -> bool {
        match row {
            Either::First(p) => self.first.is_row(net, p),
            Either::Second(q) => self.second.is_row(net, q),
        }
    }

    fn cap(&self, net: &Network, row: Either<A::Row, B::Row>) -> u32 {
        match row {
            Either::First(p) => self.first.cap(net, p),
            Either::Second(q) => self.second.cap(net, q),
        }
    }

    fn leg_use(&self, net: &Network, kind: TypeId, leg: Leg, row: Either<A::Row, B::Row>) -> u32 {
        match row {
            Either::First(p) => self.first.leg_use(net, kind, leg, p),
            Either::Second(q) => self.second.leg_use(net, kind, leg, q),
        }
    }

    fn touched_use(
        &self,
        net: &Network,
        kind: TypeId,
        leg: Leg,
        row: Either<A::Row, B::Row>,
    ) -> u32 {
        match row {
            Either::First(p) => self.first.touched_use(net, kind, leg, p),
            Either::Second(q) => self.second.touched_use(net, kind, leg, q),
        }
    }

    fn touched(
        &self,
        net: &Network,
        kind: TypeId,
        leg: Leg,
        k: u32,
    ) -> Option<Either<A::Row, B::Row>> {
        let count = self.first.used_count(net, kind, leg);
        if k < count {
            let p = self.first.touched(net, kind, leg, k)?;
            return Some(Either::First(p));
        }
        let q = self.second.touched(net, kind, leg, k - count)?;
        Some(Either::Second(q))
    }

    fn used_count(&self, net: &Network, kind: TypeId, leg: Leg) -> u32 {
        self.first.used_count(net, kind, leg) + self.second.used_count(net, kind, leg)
    }

    fn use_alike(&self, net: &Network, kind: TypeId, first: Leg, second: Leg) -> bool {
        self.first.use_alike(net, kind, first, second)
            && self.second.use_alike(net, kind, first, second)
    }
}

/// The numbers of rows of the second family stand past those of the first.
impl<P: CodedRow, Q: CodedRow> CodedRow for Either<P, Q> {
    ghost use Rattle.std.proofs.Common.{refl};
    ghost use Rattle.optra_rows.specs.EitherCodes.{either_code, either_row, either_codes, either_leads_back, either_ordered, either_few, either_below};
    ghost use Rattle.optra_rows.specs.EitherLemmas.{tell_both_apart};

    ghost code_of = { λ row. either_code P.code_of Q.code_of P.codes row };

    ghost row_of = { λ code. either_row P.row_of Q.row_of P.codes code };

    ghost codes = { either_codes P.codes Q.codes };

    ghost tells_apart = { tell_both_apart P.cmp Q.cmp ⟦<Either<P, Q> as Ord>⟧.cmp (λ a b. refl) (λ a b. refl) (λ a b. refl) (λ a b. refl) P.tells_apart Q.tells_apart };

    ghost leads_back = { either_leads_back P.code_of Q.code_of P.row_of Q.row_of P.codes P.leads_back Q.leads_back P.below };

    ghost ordered = { either_ordered P.cmp Q.cmp ⟦<Either<P, Q> as Ord>⟧.cmp (λ a b. refl) (λ a b. refl) (λ a b. refl) (λ a b. refl) P.code_of Q.code_of P.codes P.ordered Q.ordered P.below };

    ghost few = { either_few P.codes Q.codes };

    ghost below = { either_below P.code_of Q.code_of P.codes Q.codes P.few P.below Q.below };

    fn code(self) -> Option<u64> {
        match self {
            Either::First(p) => p.code(),
            Either::Second(q) => past(P::codes(), q.code()?),
        }
    }

    fn of_code(code: u64) -> Either<P, Q> {
        let first = P::codes();
        if code < first {
            Either::First(P::of_code(code))
        } else {
            Either::Second(Q::of_code(code - first))
        }
    }

    fn codes() -> u64 {
        P::codes().saturating_add(Q::codes())
    }
}

/// A number past so many others, where the greatest number of 64 bits is greater.
fn past(others: u64, code: u64) -> Option<u64>
    ensures { result ≡ past others code }
{
    let sum = others.saturating_add(code);
    if sum == u64::MAX {
        return None;
    }
    Some(sum)
}
