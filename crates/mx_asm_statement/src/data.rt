//! Values of `.data1`, `.data2` and `.data4`, which have to fit.

ghost use Rattle.std.specs.Prelude.{◌≡◌, IfOk};
ghost use Rattle.mx_asm_statement.specs.Data.{data_value_in, data_of};

use crate::number::number_in;
use crate::{DataValues, Item, Statement, Value, split_at_comma, value_of};
use mx_word::Size;
use std::alloc::{AllocError, Global};

/// The value of items, if it fits.
fn value_in(size: Size, items: &[Item]) -> Option<Value>
    ensures { result ≡ data_value_in size items.now }
{
    let value = value_of(items)?;
    number_in(size, value)?;
    Some(value)
}

/// Data of a size: the values between commas, if each fits.
pub fn data_of(alloc: Global, size: Size, items: &[Item]) -> Result<Option<Statement>, AllocError>
    ensures { IfOk result (λ s. s ≡ data_of size items.now) }
{
    let mut found = Vec::new(alloc);
    let mut rest = items;
    while let Some((front, more)) = split_at_comma(rest) {
        match value_in(size, front) {
            Some(value) => found.push(value)?,
            None => return Ok(None),
        }
        rest = more;
    }
    match value_in(size, rest) {
        Some(value) => found.push(value)?,
        None => return Ok(None),
    }
    Ok(Some(Statement::Data(size, DataValues::from_vec(found))))
}
