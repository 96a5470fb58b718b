// A whole text, record by record.
ghost use Rattle.std.specs.Prelude.{◌≡◌, ◌≤◌, ◌<◌, ◌+◌, ◌⊎◌, IfOk, IfErr, OnOk, Some, length, map};
ghost use Rattle.csv.specs.Reading.{is_bom, strip_bom};
ghost use Rattle.job_base.specs.declared.limits.TheConstants.{MOST_TABLE_BYTES};
ghost use Rattle.table_in.specs.Rows.{rows_in, table_fault, fault_from};
ghost use Rattle.table_in.specs.Columns.{HoldsAsked, HoldsRows};
ghost use Rattle.table_in.specs.Plain.{AddsRows, AreNamed, HoldsMarked, IsMarked};

use crate::names::names_end;
use crate::rows::push_plain_rows;
use crate::{Table, TableFault};
use csv::{ByteRecord, ReaderBuilder};
use std::alloc::Global;

// The table of the names that the first record holds.
fn read_names(alloc: Global, source: &[u8]) -> Result<Table, TableFault>
    ensures ok { IfOk result (AreNamed source.now) }
    ensures err { IfErr result (λ f. (f ≡ TableFault.NoMemory) ⊎ (table_fault (rows_in source.now) ≡ Some f)) }
{
    let mut reader = ReaderBuilder::new()
        .has_headers(false)
        .from_reader(alloc, source);
    let mut record = ByteRecord::new(alloc);
    let has_names = match reader.read_byte_record(&mut record) {
        Ok(has_names) => has_names,
        Err(_) => return Err(TableFault::NoMemory),
    };
    if !has_names {
        return Err(TableFault::Empty);
    }
    match Table::named(alloc, &record) {
        Ok(table) => Ok(table),
        Err(_) => Err(TableFault::NoMemory),
    }
}

// Adds what is marked of the records of a text, of which the first has this number.
fn push_rows(
    table: &mut Table,
    alloc: Global,
    marks: &[bool],
    values: &mut [i64],
    text: &[u8],
    first: u32,
) -> Result<(), TableFault>
    requires values { length values.old ≡ length marks.now }
    requires columns { IsMarked marks.now table.old }
    requires small { first + length text.now < 4294967295 }
    ensures ok { OnOk result (AddsRows first marks.now table.old table.new (rows_in text.now)) }
    ensures err { IfErr result (λ f. (f ≡ TableFault.NoMemory)
        ⊎ (fault_from first (length marks.now) (rows_in text.now) ≡ Some f)) }
{
    let mut reader = ReaderBuilder::new()
        .has_headers(false)
        .flexible(true)
        .from_reader(alloc, text);
    // One record is read into again and again, so a row takes no memory but that of its values.
    let mut record = ByteRecord::new(alloc);
    for row in first..u32::MAX {
        let has_row = match reader.read_byte_record(&mut record) {
            Ok(has_row) => has_row,
            Err(_) => return Err(TableFault::NoMemory),
        };
        if !has_row {
            return Ok(());
        }
        match table.push_row(&record, row, marks, values) {
            Ok(()) => {}
            Err(fault) => return Err(fault),
        }
    }
    // A record takes a byte at least, so there are fewer.
    unreachable!()
}

fn is_mark(a: u8, b: u8, c: u8) -> bool
    ensures { result ≡ is_bom a b c }
{
    a == 0xEF && b == 0xBB && c == 0xBF
}

// The text after a byte-order mark at its head.
fn skip_mark(source: &[u8]) -> &[u8]
    ensures { result.now ≡ strip_bom source.entry.now }
{
    if source.len() < 3 {
        return source;
    }
    if is_mark(source[0], source[1], source[2]) {
        &source[3..]
    } else {
        source
    }
}

// Reads the records below the names, and keeps the marked columns.
fn read_marked(
    alloc: Global,
    source: &[u8],
    names: &Table,
    marks: &[bool],
) -> Result<Table, TableFault>
    requires within { length source.now ≤ MOST_TABLE_BYTES }
    requires names { AreNamed source.now names.now }
    requires marks { length marks.now ≡ length names.now }
    ensures ok { IfOk result (HoldsMarked marks.now source.now) }
    ensures err { IfErr result (λ f. (f ≡ TableFault.NoMemory) ⊎ (table_fault (rows_in source.now) ≡ Some f)) }
{
    let Ok(mut table) = names.only(alloc, marks) else {
        return Err(TableFault::NoMemory);
    };
    let Ok(mut values) = vec![in alloc; 0i64; marks.len()] else {
        return Err(TableFault::NoMemory);
    };
    let text = skip_mark(source);
    let Ok(stand) = push_plain_rows(&mut table, marks, &mut values, text, names_end(text)) else {
        return Err(TableFault::NoMemory);
    };
    match push_rows(
        &mut table,
        alloc,
        marks,
        &mut values,
        &text[stand.at..],
        stand.row,
    ) {
        Ok(()) => Ok(table),
        Err(fault) => Err(fault),
    }
}

/// Reads a table of at most `MOST_TABLE_BYTES` bytes.
///
/// Where the text is no table, the fault is that of the first faulty record. Of a reader's other answers none can come:
/// records may have any number of fields here, and bytes needn't be UTF-8; so an answer of the reader is out of memory.
pub fn read_table(alloc: Global, source: &[u8]) -> Result<Table, TableFault>
    requires { length source.now ≤ MOST_TABLE_BYTES }
    ensures ok { IfOk result (HoldsRows (rows_in source.now)) }
    ensures err { IfErr result (λ f. (f ≡ TableFault.NoMemory) ⊎ (table_fault (rows_in source.now) ≡ Some f)) }
{
    let names = read_names(alloc, source)?;
    let Ok(marks) = vec![in alloc; true; names.width()] else {
        return Err(TableFault::NoMemory);
    };
    read_marked(alloc, source, &names, &marks)
}

/// Reads of such a table the columns whose names are asked for. It has the faults that it would have with all of them.
pub fn read_columns(alloc: Global, source: &[u8], asked: &[Vec<u8>]) -> Result<Table, TableFault>
    requires { length source.now ≤ MOST_TABLE_BYTES }
    ensures ok { IfOk result (HoldsAsked (map (λ v. v.items) asked.now) (rows_in source.now)) }
    ensures err { IfErr result (λ f. (f ≡ TableFault.NoMemory) ⊎ (table_fault (rows_in source.now) ≡ Some f)) }
{
    let names = read_names(alloc, source)?;
    let Ok(marks) = names.marks_of(alloc, asked) else {
        return Err(TableFault::NoMemory);
    };
    read_marked(alloc, source, &names, &marks)
}
