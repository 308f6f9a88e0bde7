//! Reads the rows of a script.
ghost use Rattle.std.specs.Prelude.{◌≡◌, [], IfOk, IfErr, OnOk};
ghost use Rattle.csv.specs.Records.{fields_of};
ghost use Rattle.blobctl.specs.Reading.{IsAfter, IsAtLast, TakesNext};
ghost use Rattle.blobctl.specs.Script.{AddsRow, AreRowsOf, ExplainsRow, ExplainsRows};

use crate::fault::Fault;
use crate::fields::read_row;
use crate::script_text::ScriptText;
use csv::{ByteRecord, Reader, ReaderBuilder};
use script_player::ScriptRows;
use std::alloc::Global;

/// The most rows that a script may have.
const MAX_ROWS: u32 = 65536;

/// Makes a reader of the script's records, without a header row, that accepts any number of fields.
fn reader_of(alloc: Global, script: ScriptText) -> Reader<ScriptText>
    ensures { IsAfter script [] result }
{
    ReaderBuilder::new()
        .has_headers(false)
        .flexible(true)
        .from_reader(alloc, script)
}

/// Takes the next record, and returns whether there was one.
fn take_record(reader: &mut Reader<ScriptText>, fields: &mut ByteRecord) -> Result<bool, Fault>
    ensures more { IfOk result (TakesNext reader.old reader.new (fields_of fields.new)) }
    ensures end { IfOk result (IsAtLast reader.old) }
    ensures refused { IfErr result (λ e. e ≡ Fault.Memory) }
{
    let Ok(found) = reader.read_byte_record(fields) else {
        return Err(Fault::Memory);
    };
    Ok(found)
}

/// Adds the row of a record.
fn add_row(
    alloc: Global,
    fields: &ByteRecord,
    number: u32,
    rows: &mut ScriptRows,
) -> Result<(), Fault>
    ensures added { OnOk result (AddsRow (fields_of fields.now) rows.old rows.new) }
    ensures refused { IfErr result (λ e. ExplainsRow (fields_of fields.now) number e) }
{
    let Some(row) = read_row(fields) else {
        return Err(Fault::BadRow(number));
    };
    rows.push(alloc, &row)?;
    Ok(())
}

/// Returns the rows of a script. The records are dropped one by one as their rows are made, and the script's text piece
/// by piece as it is read. At the end only the rows are held.
///
/// # Errors
///
/// - `BadRow` with the first bad row, or with 65,537 if there are more rows.
/// - `Memory` if an allocation fails.
pub fn read_rows(alloc: Global, script: ScriptText) -> Result<ScriptRows, Fault>
    ensures rows { IfOk result (AreRowsOf script) }
    ensures fault { IfErr result (λ e. ExplainsRows script e) }
{
    let mut reader = reader_of(alloc, script);
    let mut fields = ByteRecord::new(alloc);
    let mut rows = ScriptRows::new(alloc);
    for place in 0..MAX_ROWS {
        if !take_record(&mut reader, &mut fields)? {
            return Ok(rows);
        }
        add_row(alloc, &fields, place + 1, &mut rows)?;
    }
    if take_record(&mut reader, &mut fields)? {
        return Err(Fault::BadRow(MAX_ROWS + 1));
    }
    Ok(rows)
}
