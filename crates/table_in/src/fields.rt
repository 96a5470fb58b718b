// The numbers of a record that `csv` has read.
ghost use Rattle.std.specs.Prelude.{◌≡◌, IfErr, OnOk, None, Some, length, map};
ghost use Rattle.csv.specs.Records.{fields_of};
ghost use Rattle.table_in.specs.Columns.{value_of};
ghost use Rattle.table_in.specs.Rows.{row_fault};

use crate::TableFault;
use crate::numbers::number_of;
use csv::ByteRecord;

/// Reads a number for each place of `values`, or says what is wrong with the record of this number.
pub fn read_fields(fields: &ByteRecord, row: u32, values: &mut [i64]) -> Result<(), TableFault>
    ensures sound { OnOk result (row_fault row (length values.old) (fields_of fields.now) ≡ None) }
    ensures values { OnOk result (map value_of (fields_of fields.now) ≡ values.new) }
    ensures err { IfErr result (λ f. row_fault row (length values.old) (fields_of fields.now) ≡ Some f) }
{
    if fields.len() != values.len() {
        return Err(TableFault::Unequal { row });
    }
    for i in 0..fields.len() {
        match fields.get(i) {
            Some(field) => match number_of(field) {
                Some(value) => values[i] = value,
                None => return Err(TableFault::NotNumber { row }),
            },
            None => unreachable!(),
        }
    }
    Ok(())
}
