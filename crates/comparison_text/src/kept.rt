//! What each run kept, written.
ghost use Rattle.std.specs.Prelude.{◌≡◌, codes};
ghost use Rattle.run_comparison.specs.Rows.{same_steps, seen_policy, seen_service};
ghost use Rattle.comparison_text.specs.Putting.{PutsMember, PutsValue};
ghost use Rattle.comparison_text.specs.Value.{array_of, over_time_value, overlap_value, policy_value, run_value, service_value};

use crate::putting::{put_amount, put_amount_or_null, put_number, put_numbers, put_word};
use json::Writer;
use run_comparison::{KeptRun, Overlap, PolicyRow, ServiceRow, Steps};
use std::alloc::AllocError;

/// Writes what one run kept, as the member of this name.
pub fn put_run(out: &mut Writer, member: &str, name: &str, run: &KeptRun) -> Result<(), AllocError>
    ensures { PutsMember result out.old out.new member.now (run_value name.now run.now) }
{
    out.key(member)?;
    out.begin_object()?;
    put_word(out, "name", name)?;
    put_amount(out, "kept", run.kept())?;
    put_amount(out, "without_policy", run.policies().without())?;
    put_number(out, "traces", run.traces().len() as u64)?;
    put_number(out, "ends_beyond", run.traces().beyond())?;
    put_number(out, "spans_of_other_services", run.services().beyond())?;
    out.end_object()
}

/// Writes which traces are kept by which run.
pub fn put_overlap(out: &mut Writer, overlap: Overlap) -> Result<(), AllocError>
    ensures { PutsMember result out.old out.new (codes "traces") (overlap_value overlap) }
{
    out.key("traces")?;
    out.begin_object()?;
    put_number(out, "both", overlap.both)?;
    put_number(out, "only_old", overlap.only_old)?;
    put_number(out, "only_new", overlap.only_new)?;
    put_number(out, "none", overlap.none)?;
    put_number(out, "unknown", overlap.unknown)?;
    out.end_object()
}

/// Writes the spans kept over time, in the same steps of both runs.
pub fn put_over_time(out: &mut Writer, old: &Steps, new: &Steps) -> Result<(), AllocError>
    ensures { PutsMember result out.old out.new (codes "over_time") (over_time_value old.now new.now) }
{
    out.key("over_time")?;
    out.begin_object()?;
    put_number(out, "from_ms", old.begin())?;
    put_number(out, "every_ms", old.width())?;
    put_numbers(out, "old", old.counts())?;
    put_numbers(out, "new", new.counts())?;
    out.end_object()
}

/// Writes what a policy kept.
fn put_policy(out: &mut Writer, row: PolicyRow) -> Result<(), AllocError>
    ensures { PutsValue result out.old out.new (policy_value (seen_policy row.entry)) }
{
    out.begin_object()?;
    put_word(out, "name", row.name)?;
    put_amount_or_null(out, "old", row.old)?;
    put_amount_or_null(out, "new", row.new)?;
    out.end_object()
}

/// Writes what each policy kept.
pub fn put_policies(out: &mut Writer, rows: &[PolicyRow]) -> Result<(), AllocError>
    ensures { PutsMember result out.old out.new (codes "policies") (array_of (λ row. policy_value (seen_policy row)) rows.now) }
{
    out.key("policies")?;
    out.begin_array()?;
    for row in rows {
        put_policy(out, *row)?;
    }
    out.end_array()
}

/// Writes the kept spans of a service.
fn put_service(out: &mut Writer, row: ServiceRow) -> Result<(), AllocError>
    ensures { PutsValue result out.old out.new (service_value (seen_service row.entry)) }
{
    out.begin_object()?;
    put_word(out, "name", row.name)?;
    put_number(out, "old", row.old)?;
    put_number(out, "new", row.new)?;
    out.end_object()
}

/// Writes the kept spans of each service.
pub fn put_services(out: &mut Writer, rows: &[ServiceRow]) -> Result<(), AllocError>
    ensures { PutsMember result out.old out.new (codes "services") (array_of (λ row. service_value (seen_service row)) rows.now) }
{
    out.key("services")?;
    out.begin_array()?;
    for row in rows {
        put_service(out, *row)?;
    }
    out.end_array()
}
