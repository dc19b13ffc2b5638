//! How the rows of two families together are told in fields.
ghost use Rattle.std.specs.Prelude.{◌≡◌};
ghost use Rattle.optra_cert.specs.Boths.{lesser};

use crate::{Cell, RowRead, RowText};
use optra_network::{Network, NoMemory};
use optra_rows::{Both, Either};
use std::alloc::Global;

/// The version is the greater of the two. Each family is asked with the lesser of the version that is asked for and its
/// own, and the second exactly where the first finds no kind of its own.
impl<A: RowText, B: RowText> RowText for Both<A, B> {
    ghost use Rattle.optra_cert.specs.Boths.{both_texts};
    ghost use Rattle.optra_cert.specs.BothLemmas.{both_are_texts, both_rows_fit, first_apart, second_apart};

    ghost texts_of = { λ f. both_texts (A.texts_of f.first) (B.texts_of f.second) };

    ghost are_texts = { λ f apart. both_are_texts (A.texts_of f.first) (B.texts_of f.second) apart
        (A.are_texts f.first (first_apart (A.texts_of f.first) (B.texts_of f.second) apart))
        (B.are_texts f.second (second_apart (A.texts_of f.first) (B.texts_of f.second) apart)) };

    ghost rows_fit = { λ f net row p is. both_rows_fit (A.texts_of f.first) (B.texts_of f.second) net (A.rows_of f.first net) (B.rows_of f.second net)
        (λ r. A.rows_fit f.first net r p) (λ r. B.rows_fit f.second net r p) row is };

    fn version(&self) -> u8 {
        let first = self.first.version();
        let second = self.second.version();
        if first <= second { second } else { first }
    }

    fn fields(
        &self,
        alloc: Global,
        net: &Network,
        row: Either<A::Row, B::Row>,
    ) -> Result<Vec<Cell>, NoMemory> {
        match row {
            Either::First(p) => self.first.fields(alloc, net, p),
            Either::Second(q) => self.second.fields(alloc, net, q),
        }
    }

    fn read(&self, net: &Network, version: u8, cells: &[Cell]) -> RowRead<Either<A::Row, B::Row>> {
        let first = lesser(version, self.first.version());
        match self.first.read(net, first, cells) {
            RowRead::Row(row) => RowRead::Row(Either::First(row)),
            RowRead::Name => RowRead::Name,
            RowRead::Number => RowRead::Number,
            RowRead::Kind => {
                let second = lesser(version, self.second.version());
                match self.second.read(net, second, cells) {
                    RowRead::Row(row) => RowRead::Row(Either::Second(row)),
                    RowRead::Name => RowRead::Name,
                    RowRead::Number => RowRead::Number,
                    RowRead::Kind => RowRead::Kind,
                }
            }
        }
    }
}

/// The lesser of two versions.
fn lesser(a: u8, b: u8) -> u8
    ensures { result ≡ lesser a b }
{
    if a <= b { a } else { b }
}
