//! A row of a station table with the text of its variation. By the text a variation is known in
//! columns that are not parsed.

ghost use Rattle.std.specs.Prelude.{◌≡◌, Some, IsTrue, length};
ghost use Rattle.ssim_values.specs.Variation.{variation_of};

use ssim_base::StationRow;
use ssim_columns::bytes_of;
use std::marker::Model;

/// A row. Its text is not seen.
#[derive(Drop)]
pub(crate) struct SpelledRow {
    row: StationRow,
    /// The text of its variation.
    text: [u8; 5],
}

impl Model for SpelledRow {
    ghost use Rattle.ssim_base.specs.Stations.{Row};
    ghost use Rattle.ssim_values.specs.Variation.{SpellsVariation};

    ghost Value = { Row };

    ghost view = { λ r. r.row };

    ghost invariant = { λ r. SpellsVariation r.row.variation r.text };
}

impl SpelledRow {
    /// The row with the text of its variation.
    pub(crate) fn of(row: StationRow) -> SpelledRow
        ensures { result ≡ row }
    {
        SpelledRow {
            row,
            text: row.variation().write(),
        }
    }

    /// The row alone.
    pub(crate) fn row(&self) -> StationRow
        ensures { result ≡ self.now }
    {
        self.row
    }

    /// Whether columns have its variation.
    pub(crate) fn is_spelled(&self, text: &[u8]) -> bool
        requires { length text.now ≡ 5 }
        ensures { IsTrue result → variation_of text.now ≡ Some self.now.variation }
    {
        bytes_of::<5>(text) == self.text
    }
}
