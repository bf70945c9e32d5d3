//! The comparison as a page.
ghost use Rattle.std.specs.Prelude.{◌≡◌, ◌++◌, OnErr, OnOk};
ghost use Rattle.json.specs.Print.{print};
ghost use Rattle.json.specs.Tree.{json_tokens};
ghost use Rattle.comparison_text.specs.Page.{in_script, page_of, script_byte};
ghost use Rattle.comparison_text.specs.Value.{value_about};

use crate::comparison::About;
use crate::json_text::json_of;
use crate::page_text::{BEFORE, BEHIND};
use run_comparison::KeptRun;
use std::alloc::AllocError;

/// Appends a byte of JSON as it stands in a script's element of HTML: `<` as `\u003c`.
fn put_byte(page: &mut Vec<u8>, byte: u8) -> Result<(), AllocError>
    ensures { OnOk result (page.new.items ≡ page.old.items ++ script_byte byte) }
{
    if byte == b'<' {
        return page.extend_from_slice(b"\\u003c");
    }
    page.push(byte)?;
    Ok(())
}

/// Appends a text of JSON so, that no `<` of it ends the element. It is the same value.
fn put_script(page: &mut Vec<u8>, text: &[u8]) -> Result<(), AllocError>
    ensures { OnOk result (page.new.items ≡ page.old.items ++ in_script text.now) }
{
    for byte in text {
        put_byte(page, *byte)?;
    }
    Ok(())
}

/// Appends a page around a text of JSON: what stands before it, the text, and what stands behind it.
fn put_around(
    line: &mut Vec<u8>,
    before: &[u8],
    text: &[u8],
    behind: &[u8],
) -> Result<(), AllocError>
    ensures page { OnOk result (line.new.items ≡ line.old.items ++ page_of before.now text.now behind.now) }
    ensures same { OnErr result (line.new.items ≡ line.old.items) }
{
    let mut page = Vec::new(*line.allocator());
    page.extend_from_slice(before)?;
    put_script(&mut page, text)?;
    page.extend_from_slice(behind)?;
    line.extend_from_slice(&page)
}

/// Appends the comparison as a page: one file of HTML with its script, its style and its numbers, which takes nothing
/// from elsewhere. `Err` where memory was refused: the bytes are as they were.
pub fn put_page(
    line: &mut Vec<u8>,
    old: &KeptRun,
    new: &KeptRun,
    about: &About,
) -> Result<(), AllocError>
    ensures page { OnOk result (line.new.items ≡ line.old.items ++ page_of BEFORE.now (print (json_tokens (value_about about.now old.now new.now))) BEHIND.now) }
    ensures same { OnErr result (line.new.items ≡ line.old.items) }
{
    let text = json_of(*line.allocator(), old, new, about)?;
    put_around(line, BEFORE.as_bytes(), &text, BEHIND.as_bytes())
}
