//! Members of objects, written.
ghost use Rattle.std.specs.Prelude.{◌≡◌, option_map};
ghost use Rattle.json.specs.Json.{boolean, string};
ghost use Rattle.decision_line.specs.Line.{count, name_or_null};
ghost use Rattle.comparison_text.specs.Putting.{PutsMember, PutsValue};
ghost use Rattle.comparison_text.specs.Value.{amount_or_null, amount_value, array_of};

use json::Writer;
use run_comparison::Amount;
use std::alloc::AllocError;

/// Writes a member whose value is a number.
pub fn put_number(out: &mut Writer, name: &str, number: u64) -> Result<(), AllocError>
    ensures { PutsMember result out.old out.new name.now (count number) }
{
    out.key(name)?;
    out.u64(number)
}

/// Writes a member whose value is a text.
pub fn put_word(out: &mut Writer, name: &str, text: &str) -> Result<(), AllocError>
    ensures { PutsMember result out.old out.new name.now (string text.now) }
{
    out.key(name)?;
    out.string(text)
}

/// Writes a member whose value is a text, or null.
pub fn put_word_or_null(out: &mut Writer, name: &str, text: Option<&str>) -> Result<(), AllocError>
    ensures { PutsMember result out.old out.new name.now (name_or_null (option_map (λ text. text.now) text.entry)) }
{
    out.key(name)?;
    match text {
        Some(text) => out.string(text),
        None => out.null(),
    }
}

/// Writes a member whose value is true or false.
pub fn put_truth(out: &mut Writer, name: &str, truth: bool) -> Result<(), AllocError>
    ensures { PutsMember result out.old out.new name.now (boolean truth) }
{
    out.key(name)?;
    out.boolean(truth)
}

/// Writes an amount.
fn put_amount_value(out: &mut Writer, amount: Amount) -> Result<(), AllocError>
    ensures { PutsValue result out.old out.new (amount_value amount) }
{
    out.begin_object()?;
    put_number(out, "traces", amount.traces)?;
    put_number(out, "spans", amount.spans)?;
    put_number(out, "bytes", amount.bytes)?;
    out.end_object()
}

/// Writes a member whose value is an amount.
pub fn put_amount(out: &mut Writer, name: &str, amount: Amount) -> Result<(), AllocError>
    ensures { PutsMember result out.old out.new name.now (amount_value amount) }
{
    out.key(name)?;
    put_amount_value(out, amount)
}

/// Writes a member whose value is an amount, or null.
pub fn put_amount_or_null(
    out: &mut Writer,
    name: &str,
    amount: Option<Amount>,
) -> Result<(), AllocError>
    ensures { PutsMember result out.old out.new name.now (amount_or_null amount) }
{
    out.key(name)?;
    match amount {
        Some(amount) => put_amount_value(out, amount),
        None => out.null(),
    }
}

/// Writes a member whose value is an array of numbers.
pub fn put_numbers(out: &mut Writer, name: &str, numbers: &[u64]) -> Result<(), AllocError>
    ensures { PutsMember result out.old out.new name.now (array_of count numbers.now) }
{
    out.key(name)?;
    out.begin_array()?;
    for number in numbers {
        out.u64(*number)?;
    }
    out.end_array()
}
