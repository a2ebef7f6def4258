// The sizes and limits of documents 01 and 02, each once.

#![tactic(auto)]

// A record is 24 bytes, a value row 56.
pub const RECORD: usize = 24;

pub const ROW: usize = 56;

// At most 65,536 section bytes, 2,048 records and 1,024 value rows.
pub const SECTION_LIMIT: usize = 65536;

pub const RECORDS_LIMIT: usize = 49152;

pub const VALUES_LIMIT: usize = 57344;

// The highest mask, with every value present.
pub const MASK_LIMIT: u64 = 63;

// At most 4,096 words in a run, on 32 registers.
pub const RUN_LIMIT: usize = 16384;

pub const REGISTERS: usize = 32;
