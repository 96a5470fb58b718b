//! The exit statuses of the program.
ghost use Rattle.std.specs.Prelude.{◌≡◌};
ghost use Rattle.frame_top.specs.Seen.{has_run};

/// Every statement was accepted and no job trapped, or the depth report was written.
pub const DONE: u8 = 0;

/// A statement was refused, and no job trapped.
pub const STATEMENT_REFUSED: u8 = 1;

/// The words are not of the command.
pub const USAGE: u8 = 2;

/// The script is refused at a line.
pub const SCRIPT_REFUSED: u8 = 3;

/// The table is refused, or lacks a column that the script names.
pub const TABLE_REFUSED: u8 = 4;

/// A job trapped.
pub const TRAPPED: u8 = 5;

/// A file could not be read.
pub const UNREAD: u8 = 6;

/// The text of another status could not be written whole.
pub const UNWRITTEN: u8 = 7;

/// Memory was not found.
pub const NO_MEMORY: u8 = 8;

/// A limit of the language is passed.
pub const PAST_LIMIT: u8 = 9;

/// Whether a script ran, by the status: every other one tells why none did.
pub fn has_run(status: u8) -> bool
    ensures { result ≡ has_run status }
{
    status == DONE || (status == STATEMENT_REFUSED || status == TRAPPED)
}
