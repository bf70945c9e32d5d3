//! The report of several threads, each of which counted by itself.
ghost use Rattle.std.specs.Prelude.{IfOk, IfErr};
ghost use Rattle.drop_ledger.specs.Sums.{AreSums, Fits, SumPasses};

use crate::count::CounterOverflow;
use crate::report::Report;

/// The report whose numbers are the sums of those of all these reports. `CounterOverflow`: one of the sums passes
/// 2^64-1.
pub fn total(reports: &[Report]) -> Result<Report, CounterOverflow>
    ensures sums { IfOk result (AreSums reports.now) }
    ensures fits { IfOk result Fits }
    ensures full { IfErr result (λ fault. SumPasses reports.now) }
{
    let mut sum = Report::new();
    for report in reports {
        match sum.plus(report) {
            Ok(more) => sum = more,
            Err(fault) => return Err(fault),
        }
    }
    Ok(sum)
}
