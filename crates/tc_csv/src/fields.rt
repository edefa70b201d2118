//! The fields of a record.
ghost use Rattle.std.specs.Prelude.{◌≡◌, [], get_or, IfSome};
ghost use Rattle.csv.specs.Records.{fields_of};
ghost use Rattle.tc_types.specs.Numbers.{IsNumber};
ghost use Rattle.tc_types.specs.Grammar.{Reads};
ghost use Rattle.tc_csv.specs.Tables.{number_field};

use csv::ByteRecord;
use tc_lines::read::readers::number;

/// The field at a place of a record; empty where it has none there.
pub fn field(fields: &ByteRecord, place: usize) -> &[u8]
    ensures { result.now ≡ get_or (fields_of fields.now) place [] }
{
    match fields.get(place) {
        Some(field) => field,
        None => &[],
    }
}

/// The number that a field names, if it is not empty; `None` where it is neither empty nor a number of 32 bits.
pub fn optional_number(field: &[u8]) -> Option<Option<u32>>
    ensures { Reads number_field (λ named. IfSome named IsNumber) field.now result }
{
    if field.is_empty() {
        return Some(None);
    }
    Some(Some(number(field)?))
}
