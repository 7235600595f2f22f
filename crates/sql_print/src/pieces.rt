//! Lists, texts in quotes, numbers and values, as they are printed. Each call fails only where memory runs out.
ghost use Rattle.std.specs.Prelude.{◌≡◌, ◌++◌, ℕ, List, OnOk, decimal};
ghost use Rattle.std.specs.List.{flat_map};
ghost use Rattle.dtx_values.specs.Texts.{quoted_byte, text_of_value};
ghost use Rattle.sql_parse.specs.Parts.{itself};
ghost use Rattle.sql_print.specs.Printing as spec;

use dtx_values::{Name, Value, value_text};
use itoa::Buffer;
use std::alloc::{AllocError, Global};

/// An item of a list that is printed.
pub(crate) trait Printed {
    ghost text: { Self → List ℕ };

    /// Adds its text at the end. Fails where memory runs out.
    fn put_to(&self, alloc: Global, out: &mut Vec<u8>) -> Result<(), AllocError>
        ensures { OnOk result (out.new.items ≡ out.old.items ++ text self.now) };
}

impl Printed for Name {
    ghost text = { itself };

    fn put_to(&self, _: Global, out: &mut Vec<u8>) -> Result<(), AllocError> {
        out.extend_from_slice(self.as_bytes())
    }
}

/// Adds each item, with a separator before it.
pub(crate) fn put_each<P: Printed>(
    alloc: Global,
    out: &mut Vec<u8>,
    separator: &[u8],
    items: &[P],
) -> Result<(), AllocError>
    ensures { OnOk result (out.new.items ≡ out.old.items ++ spec.each_text separator.now P.text items.now) }
{
    for item in items {
        out.extend_from_slice(separator)?;
        item.put_to(alloc, out)?;
    }
    Ok(())
}

/// Adds the items with a separator between them.
pub(crate) fn put_separated<P: Printed>(
    alloc: Global,
    out: &mut Vec<u8>,
    separator: &[u8],
    items: &[P],
) -> Result<(), AllocError>
    ensures { OnOk result (out.new.items ≡ out.old.items ++ spec.separated_text separator.now P.text items.now) }
{
    match items {
        [] => Ok(()),
        [first, others @ ..] => {
            first.put_to(alloc, out)?;
            put_each(alloc, out, separator, others)
        }
    }
}

/// Adds the items between brackets, with commas between them.
pub(crate) fn put_bracketed<P: Printed>(
    alloc: Global,
    out: &mut Vec<u8>,
    items: &[P],
) -> Result<(), AllocError>
    ensures { OnOk result (out.new.items ≡ out.old.items ++ spec.bracketed_text P.text items.now) }
{
    out.extend_from_slice(b"(")?;
    put_separated(alloc, out, b", ", items)?;
    out.extend_from_slice(b")")
}

fn put_quoted_byte(out: &mut Vec<u8>, byte: u8) -> Result<(), AllocError>
    ensures { OnOk result (out.new.items ≡ out.old.items ++ quoted_byte byte) }
{
    if byte == b'\'' {
        return out.extend_from_slice(b"''");
    }
    out.extend_from_slice(&[byte])
}

fn put_doubled(out: &mut Vec<u8>, bytes: &[u8]) -> Result<(), AllocError>
    ensures { OnOk result (out.new.items ≡ out.old.items ++ flat_map quoted_byte bytes.now) }
{
    for byte in bytes {
        put_quoted_byte(out, *byte)?;
    }
    Ok(())
}

/// Adds a text in quotes.
pub(crate) fn put_quoted(out: &mut Vec<u8>, text: &[u8]) -> Result<(), AllocError>
    ensures { OnOk result (out.new.items ≡ out.old.items ++ spec.quoted_text text.now) }
{
    out.extend_from_slice(b"'")?;
    put_doubled(out, text)?;
    out.extend_from_slice(b"'")
}

/// Adds a number in decimal.
pub(crate) fn put_number(out: &mut Vec<u8>, number: u64) -> Result<(), AllocError>
    ensures { OnOk result (out.new.items ≡ out.old.items ++ decimal number) }
{
    out.extend_from_slice(Buffer::new().format(number).as_bytes())
}

/// Adds a value.
pub(crate) fn put_value(alloc: Global, out: &mut Vec<u8>, value: &Value) -> Result<(), AllocError>
    ensures { OnOk result (out.new.items ≡ out.old.items ++ text_of_value value.now) }
{
    let text = value_text(alloc, value)?;
    out.extend_from_slice(text.as_slice())
}
