// What a call reads: the script and the table.
ghost use Rattle.std.specs.Prelude.{◌≡◌, ◌≢◌, ◌<◌, ◌≤◌, ◌⊎◌, List, length, None, Some, option_map, string_bytes, IfOk, IfErr, IfSome, IsErrOf, Err};
ghost use Rattle.job_base.specs.declared.limits.TheConstants.{MOST_GENERATED_JOBS, MOST_SCRIPT_BYTES, MOST_SEED, MOST_TABLE_BYTES, MOST_WORKERS};
ghost use Rattle.job_base.specs.Faults.{Rose};
ghost use Rattle.plan_statements.specs.Tables.{columns_of};
ghost use Rattle.table_laws.specs.Laws.{AnswerAllAlike};
ghost use Rattle.command_words.specs.Words.{Text};
ghost use Rattle.script_gen.specs.Scripts.{script_text};
ghost use Rattle.frame_top.specs.Asking.{IsAsked, bytes_in};
ghost use Rattle.frame_top.specs.Inputs.{CanBeTable, IsUnread, ReadsSource};
ghost use Rattle.frame_top.specs.Refusals.{named_columns, refused_table, table_of, table_refusal};
ghost use Rattle.frame_top.specs.Words.{asks_depth, script_name, table_name, workers_in};

use crate::columns::read_for;
use command_words::Command;
use frame_ast::script::Script;
use job_base::limits::{MOST_SCRIPT_BYTES, MOST_TABLE_BYTES};
use job_base::{FileFault, Files, NoMemory};
use script_gen::gen_script;
use std::alloc::Global;
use table_in::{Table, TableFault, read_table};

/// How a command is to be answered.
#[derive(Clone, Copy)]
pub struct Options {
    pub workers: u32,
    pub depth: bool,
}

/// The options of a command.
pub fn options_of(command: &Command) -> Options
    requires asked { (words : List Text) × IsAsked words command.now }
    ensures some { 1 ≤ result.workers }
    ensures most { result.workers ≤ MOST_WORKERS }
    ensures workers { (words : List Text) → IsAsked words command.now → result.workers ≡ workers_in words }
    ensures depth { (words : List Text) → IsAsked words command.now → result.depth ≡ asks_depth words }
{
    match command {
        Command::Run { workers, depth, .. } => Options {
            workers: *workers,
            depth: *depth,
        },
        Command::Gen { workers, depth, .. } => Options {
            workers: *workers,
            depth: *depth,
        },
    }
}

// The script that two numbers make, as if it were read.
fn make_source(alloc: Global, number: u32, jobs: u32) -> Result<Vec<u8>, FileFault>
    requires number { number ≤ MOST_SEED }
    requires jobs { (1 ≤ jobs) × (jobs ≤ MOST_GENERATED_JOBS) }
    ensures text { IfOk result (λ text. text.items ≡ script_text number jobs) }
    ensures within { IfOk result (λ text. length text.items ≤ MOST_SCRIPT_BYTES) }
    ensures too_long { IsErrOf result FileFault.TooLong → MOST_SCRIPT_BYTES < length (script_text number jobs) }
    ensures told { result ≢ Err FileFault.Failed }
{
    match gen_script(alloc, number, jobs) {
        Ok(text) if text.len() <= MOST_SCRIPT_BYTES as usize => Ok(text),
        Ok(_) => Err(FileFault::TooLong),
        Err(NoMemory) => Err(FileFault::NoMemory),
    }
}

/// The bytes of the script: those of its file, or those that two numbers make.
pub fn read_source<F: Files>(
    alloc: Global,
    command: &Command,
    files: &mut F,
) -> Result<Vec<u8>, FileFault>
    requires asked { (words : List Text) × IsAsked words command.now }
    ensures source { (words : List Text) → IsAsked words command.now
        → IfOk result (λ bytes. ReadsSource words (F.bytes files.old) bytes.items) }
    ensures within { IfOk result (λ bytes. length bytes.items ≤ MOST_SCRIPT_BYTES) }
    ensures too_long { IsErrOf result FileFault.TooLong → (words : List Text) → IsAsked words command.now
        → (bytes : Text) × ReadsSource words (F.bytes files.old) bytes × (MOST_SCRIPT_BYTES < length bytes) }
    ensures failed { IsErrOf result FileFault.Failed → (words : List Text) → IsAsked words command.now
        → IsUnread (Rose (F.faults files.old) (F.faults files.new)) (F.last_failed files.new) (script_name words) }
    ensures count { IsErrOf result FileFault.Failed ⊎ (F.faults files.new ≡ F.faults files.old) }
    ensures name_stays { IsErrOf result FileFault.Failed ⊎ (F.last_failed files.new ≡ F.last_failed files.old) }
    ensures later { F.faults files.old ≤ F.faults files.new }
    ensures same { F.bytes files.new ≡ F.bytes files.old }
{
    match command {
        Command::Run { script, .. } => files.read(alloc, script, u64::from(MOST_SCRIPT_BYTES)),
        Command::Gen { number, jobs, .. } => make_source(alloc, *number, *jobs),
    }
}

// The bytes of a file, where one is named.
fn read_named<F: Files>(
    alloc: Global,
    name: &Option<String>,
    files: &mut F,
) -> Result<Option<Vec<u8>>, FileFault>
    ensures table { IfOk result (λ bytes. CanBeTable (F.bytes files.old) (option_map string_bytes name.now)
        (bytes_in bytes)) }
    ensures within { IfOk result (λ bytes. IfSome bytes (λ b. length b.items ≤ MOST_TABLE_BYTES)) }
    ensures too_long { IsErrOf result FileFault.TooLong
        → (bytes : Text) × CanBeTable (F.bytes files.old) (option_map string_bytes name.now) (Some bytes)
        × (MOST_TABLE_BYTES < length bytes) }
    ensures failed { IsErrOf result FileFault.Failed → IsUnread (Rose (F.faults files.old) (F.faults files.new))
        (F.last_failed files.new) (option_map string_bytes name.now) }
    ensures count { IsErrOf result FileFault.Failed ⊎ (F.faults files.new ≡ F.faults files.old) }
    ensures name_stays { IsErrOf result FileFault.Failed ⊎ (F.last_failed files.new ≡ F.last_failed files.old) }
    ensures later { F.faults files.old ≤ F.faults files.new }
    ensures same { F.bytes files.new ≡ F.bytes files.old }
{
    match name {
        Some(name) => match files.read(alloc, name, u64::from(MOST_TABLE_BYTES)) {
            Ok(bytes) => Ok(Some(bytes)),
            Err(fault) => Err(fault),
        },
        None => Ok(None),
    }
}

/// The bytes of the table, where one is given.
pub fn read_table_file<F: Files>(
    alloc: Global,
    command: &Command,
    files: &mut F,
) -> Result<Option<Vec<u8>>, FileFault>
    ensures table { (words : List Text) → IsAsked words command.now
        → IfOk result (λ bytes. CanBeTable (F.bytes files.old) (table_name words) (bytes_in bytes)) }
    ensures within { IfOk result (λ bytes. IfSome bytes (λ b. length b.items ≤ MOST_TABLE_BYTES)) }
    ensures too_long { IsErrOf result FileFault.TooLong → (words : List Text) → IsAsked words command.now
        → (bytes : Text) × CanBeTable (F.bytes files.old) (table_name words) (Some bytes)
        × (MOST_TABLE_BYTES < length bytes) }
    ensures failed { IsErrOf result FileFault.Failed → (words : List Text) → IsAsked words command.now
        → IsUnread (Rose (F.faults files.old) (F.faults files.new)) (F.last_failed files.new) (table_name words) }
    ensures count { IsErrOf result FileFault.Failed ⊎ (F.faults files.new ≡ F.faults files.old) }
    ensures name_stays { IsErrOf result FileFault.Failed ⊎ (F.last_failed files.new ≡ F.last_failed files.old) }
    ensures later { F.faults files.old ≤ F.faults files.new }
    ensures same { F.bytes files.new ≡ F.bytes files.old }
{
    match command {
        Command::Run { table, .. } => read_named(alloc, table, files),
        Command::Gen { .. } => Ok(None),
    }
}

/// The table of these bytes for a script; one without columns where none is given. It answers as the table of the bytes
/// does for each column that the script names.
pub fn parse_table_for(
    alloc: Global,
    script: &Script,
    bytes: &Option<Vec<u8>>,
) -> Result<Table, TableFault>
    requires within { IfSome bytes.now (λ b. length b.items ≤ MOST_TABLE_BYTES) }
    ensures sound { IfOk result (λ table. table_refusal (bytes_in bytes.now) ≡ None) }
    ensures columns { IfOk result (λ table. AnswerAllAlike (columns_of table) (table_of (bytes_in bytes.now))
        script.now.statements.items) }
    ensures fault { IfErr result (λ fault. (fault ≡ TableFault.NoMemory)
        ⊎ (fault ≢ TableFault.NoMemory) × (table_refusal (bytes_in bytes.now) ≡ Some (refused_table fault))) }
{
    match bytes {
        None => Ok(Table::none(alloc)),
        Some(bytes) => read_for(alloc, script, bytes),
    }
}

/// The table of these bytes, with all of its columns; one without columns where none is given.
pub fn parse_table(alloc: Global, bytes: &Option<Vec<u8>>) -> Result<Table, TableFault>
    requires within { IfSome bytes.now (λ b. length b.items ≤ MOST_TABLE_BYTES) }
    ensures sound { IfOk result (λ table. table_refusal (bytes_in bytes.now) ≡ None) }
    ensures columns { IfOk result (λ table. table ≡ named_columns (bytes_in bytes.now)) }
    ensures fault { IfErr result (λ fault. (fault ≡ TableFault.NoMemory)
        ⊎ (fault ≢ TableFault.NoMemory) × (table_refusal (bytes_in bytes.now) ≡ Some (refused_table fault))) }
{
    match bytes {
        None => Ok(Table::none(alloc)),
        Some(bytes) => read_table(alloc, bytes),
    }
}
