// The columns of a table.
ghost use Rattle.std.specs.Prelude.{◌≡◌, ◌<◌, ◌⊎◌, IfOk, IfErr, OnOk, IfSome, Some, None, [], ◌∷◌, ◌++◌, length, map, option_map, slice_set, slice_index_or};
ghost use Rattle.csv.specs.Records.{fields_of};
ghost use Rattle.table_in.specs.Columns.{NamedColumn, column_named, columns_from, is_asked, with_row, with_value, with_values, empty_column};
ghost use Rattle.table_in.specs.Plain.{IsMarked, marked, marks_of};
ghost use Rattle.table_in.specs.Rows.{row_fault};

use crate::TableFault;
use crate::fields::read_fields;
use csv::ByteRecord;
use std::alloc::{AllocError, Global};
use std::marker::Model;

// Whether a name is one of those that are asked for.
fn is_asked(asked: &[Vec<u8>], name: &[u8]) -> bool
    ensures { result ≡ is_asked (map (λ v. v.items) asked.now) name.now }
{
    for one in asked {
        if one.as_slice() == name {
            return true;
        }
    }
    false
}

#[derive(Debug, Drop)]
struct Column {
    name: Vec<u8>,
    values: Vec<i64>,
}

/// Named columns of equally many numbers. A contract sees the list of them, each with its name and its values.
#[derive(Debug, Drop)]
pub struct Table {
    columns: Vec<Column>,
}

impl Model for Table {
    ghost use Rattle.std.specs.Prelude.{List, map};
    ghost use Rattle.table_in.specs.Columns.{NamedColumn};

    ghost Value = { List NamedColumn };

    ghost view = { λ t. map (λ c. record { name = c.name.items; values = c.values.items }) t.columns.items };
}

impl Table {
    /// A table with no columns.
    pub fn none(alloc: Global) -> Table
        ensures { result ≡ [] }
    {
        Table {
            columns: Vec::new(alloc),
        }
    }

    /// The values of the first column of this name; names are compared byte by byte.
    pub fn column(&self, name: &[u8]) -> Option<&[i64]>
        ensures { option_map (λ s. s.now) result ≡ column_named name.now self.now }
    {
        for column in &self.columns {
            if column.name.as_slice() == name {
                return Some(&column.values);
            }
        }
        None
    }

    /// One more column, with these values. A caller that has numbers needs no text for them.
    pub fn push_column(
        &mut self,
        alloc: Global,
        name: &[u8],
        values: &[i64],
    ) -> Result<(), AllocError>
        ensures { OnOk result (self.new ≡ self.old ++ record { name = name.now; values = values.now } ∷ []) }
    {
        let name = name.to_vec(alloc)?;
        let values = values.to_vec(alloc)?;
        self.columns.push(Column { name, values })?;
        Ok(())
    }

    // One more column, with no value yet.
    fn push_name(&mut self, alloc: Global, name: &[u8]) -> Result<(), AllocError>
        ensures { OnOk result (self.new ≡ self.old ++ empty_column name.now ∷ []) }
    {
        let name = name.to_vec(alloc)?;
        self.columns.push(Column {
            name,
            values: Vec::new(alloc),
        })?;
        Ok(())
    }

    // One more value in a column.
    fn push_value(&mut self, i: usize, value: i64) -> Result<(), AllocError>
        requires { i < length self.old }
        ensures { OnOk result (self.new ≡ slice_set self.old i
            (with_value (slice_index_or self.old i (empty_column [])) value)) }
    {
        let column = &mut self.columns[i];
        column.values.push(value)?;
        Ok(())
    }

    /// How many columns there are.
    pub(crate) fn width(&self) -> usize
        ensures { result ≡ length self.now }
    {
        self.columns.len()
    }

    // Takes memory for this many values more in a column.
    fn make_room_in(&mut self, i: usize, rows: usize) -> Result<(), AllocError>
        requires { i < length self.old }
        ensures { OnOk result (self.new ≡ self.old) }
    {
        let column = &mut self.columns[i];
        column.values.reserve(rows)?;
        Ok(())
    }

    /// Takes memory for this many values more in each column, so that they are not moved while they grow.
    pub(crate) fn make_room(&mut self, rows: usize) -> Result<(), AllocError>
        ensures { OnOk result (self.new ≡ self.old) }
    {
        let width = self.width();
        for i in 0..width {
            self.make_room_in(i, rows)?;
        }
        Ok(())
    }

    /// Adds of a record of these numbers what is marked.
    pub(crate) fn push_marked(&mut self, values: &[i64], marks: &[bool]) -> Result<(), AllocError>
        requires values { length values.now ≡ length marks.now }
        requires columns { IsMarked marks.now self.old }
        ensures { OnOk result (self.new ≡ with_values self.old (marked marks.now values.now)) }
    {
        let mut place = 0;
        for i in 0..values.len() {
            if marks[i] {
                self.push_value(place, values[i])?;
                place += 1;
            }
        }
        Ok(())
    }

    /// A table with these names, and no value yet.
    pub(crate) fn named(alloc: Global, fields: &ByteRecord) -> Result<Table, AllocError>
        ensures { IfOk result (λ t. t ≡ columns_from (fields_of fields.now) []) }
    {
        let mut table = Table::none(alloc);
        for i in 0..fields.len() {
            match fields.get(i) {
                Some(name) => table.push_name(alloc, name)?,
                None => unreachable!(),
            }
        }
        Ok(table)
    }

    /// Which columns have a name that is asked for.
    pub(crate) fn marks_of(&self, alloc: Global, asked: &[Vec<u8>]) -> Result<Vec<bool>, AllocError>
        ensures { IfOk result (λ marks. marks.items ≡ marks_of (map (λ v. v.items) asked.now) self.now) }
    {
        let mut marks = Vec::new(alloc);
        for column in &self.columns {
            marks.push(is_asked(asked, &column.name))?;
        }
        Ok(marks)
    }

    /// A table of the marked columns alone.
    pub(crate) fn only(&self, alloc: Global, marks: &[bool]) -> Result<Table, AllocError>
        requires { length marks.now ≡ length self.now }
        ensures { IfOk result (λ t. t ≡ marked marks.now self.now) }
    {
        let mut table = Table::none(alloc);
        for i in 0..marks.len() {
            if marks[i] {
                let column = &self.columns[i];
                table.push_column(alloc, &column.name, &column.values)?;
            }
        }
        Ok(table)
    }

    /// Adds of what the record of this number holds what is marked, or says what is wrong with it. `values` is where
    /// its numbers are put meanwhile.
    pub(crate) fn push_row(
        &mut self,
        fields: &ByteRecord,
        row: u32,
        marks: &[bool],
        values: &mut [i64],
    ) -> Result<(), TableFault>
        requires values { length values.old ≡ length marks.now }
        requires columns { IsMarked marks.now self.old }
        ensures sound { OnOk result (row_fault row (length marks.now) (fields_of fields.now) ≡ None) }
        ensures values { OnOk result (self.new ≡ with_row self.old (marked marks.now (fields_of fields.now))) }
        ensures err { IfErr result (λ f. (f ≡ TableFault.NoMemory)
            ⊎ (row_fault row (length marks.now) (fields_of fields.now) ≡ Some f)) }
    {
        match read_fields(fields, row, values) {
            Ok(()) => {}
            Err(fault) => return Err(fault),
        }
        match self.push_marked(values, marks) {
            Ok(()) => Ok(()),
            Err(_) => Err(TableFault::NoMemory),
        }
    }
}
