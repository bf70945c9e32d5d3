//! The numbers of a ledger, which stand behind the others where there is one.
ghost use Rattle.std.specs.Prelude.{◌≡◌, ◌++◌, OnOk, string_bytes};
ghost use Rattle.metrics_text.specs.Ledgers.{ledger_lines};

use crate::kind::FamilyKind;
use crate::text::put_single;
use std::alloc::AllocError;

/// The numbers of a ledger.
#[derive(Clone, Copy, PartialEq, Eq)]
pub struct LedgerCounts {
    /// How many spans of earlier runs were received again.
    pub restored_spans: u64,
    /// How many of these had been noted as handed over.
    pub handed_again: u64,
}

/// Appends the families of a ledger's numbers.
pub fn put_ledger(text: &mut String, counts: &LedgerCounts) -> Result<(), AllocError>
    ensures { OnOk result (string_bytes text.new ≡ string_bytes text.old ++ ledger_lines counts.now) }
{
    put_single(
        text,
        "tsc_spans_restored_total",
        "Spans of earlier runs that were received again.",
        FamilyKind::Counter,
        "",
        counts.restored_spans,
    )?;
    put_single(
        text,
        "tsc_spans_handed_again_total",
        "Spans that were received again though an earlier run had noted them as handed over.",
        FamilyKind::Counter,
        "",
        counts.handed_again,
    )
}
