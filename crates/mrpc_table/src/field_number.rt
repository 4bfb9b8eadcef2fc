//! The numbers that fields may have.

ghost use Rattle.std.specs.Prelude.{◌≡◌, ◌↔◌, IsTrue};
ghost use Rattle.mrpc_table.specs.Valid.{IsFieldNumber, is_field_number};

use crate::limits::{FIRST_RESERVED_NUMBER, LAST_RESERVED_NUMBER, MAX_FIELD_NUMBER};

/// Whether a number is a field number: 1 to 536870911, and not 19000 to 19999.
pub fn is_field_number(number: u64) -> bool
    ensures value { result ≡ is_field_number number }
    ensures meaning { IsTrue result ↔ IsFieldNumber number }
{
    number > 0
        && number <= MAX_FIELD_NUMBER
        && (number < FIRST_RESERVED_NUMBER || number > LAST_RESERVED_NUMBER)
}
