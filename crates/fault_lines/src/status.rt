//! The exit statuses of commands. Each that is not `DONE`, `MEMORY` or `WRITE_FAULT` has its one fault line.

/// The output was written.
pub const DONE: u8 = 0;

/// No memory was found.
pub const MEMORY: u8 = 1;

/// The words are no command.
pub const BAD_WORDS: u8 = 2;

/// A file could not be read.
pub const READ_FAULT: u8 = 3;

/// The output, or the product of a step, could not be written.
pub const WRITE_FAULT: u8 = 4;

/// A step was stopped before its product was written.
pub const STOPPED: u8 = 5;

/// A file that was read is no script.
pub const BAD_SCRIPT: u8 = 6;

/// A file that was read is no descriptor.
pub const BAD_DESCRIPTOR: u8 = 7;

/// A file that was read is not the table that the command takes.
pub const BAD_TABLE: u8 = 8;

/// A file that was read is no task of a step.
pub const BAD_TASK: u8 = 9;

/// A file that was to be read has more bytes than one may have.
pub const TOO_LARGE: u8 = 10;
