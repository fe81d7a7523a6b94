//! The limits of a sheet.

/// The bytes of a record, and of a sheet's header.
pub const RECORD_BYTES: usize = 16;

/// The most records of a sheet, its header included.
pub const MOST_RECORDS: usize = 1024;

/// The most label bytes of a sheet.
pub const MOST_LABEL_BYTES: usize = 16384;

/// The bytes of the longest label.
pub const LONGEST_LABEL: usize = 255;

/// The bytes of the longest sheet.
pub const LONGEST_SHEET: usize = RECORD_BYTES * MOST_RECORDS + MOST_LABEL_BYTES;
