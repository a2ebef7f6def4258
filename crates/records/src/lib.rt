// A record as its part of the bytes, and the sums and formulas at it. It is offset (u64), info (u64), addend (i64); type is the low 32
// bits of info, symbol index the high 32. A field is read where it is used.

#![tactic(auto)]

ghost use Rattle.std.specs.Prelude.{◌≡◌, ◌<◌, []};
ghost use Rattle.meaning.specs.Numbers as N;
ghost use Rattle.meaning.specs.Call as M;
ghost use Rattle.meaning.specs.Call.{card64, rows_of, row_of};
ghost use Rattle.table.specs.Columns.{sum_from, formula_from};
ghost use Rattle.records.specs.Given.{as_setting, seen, setting_in, record_in};

use sizes::{RECORD, ROW};
use table::{Formula, Sum};

/// What a call gives to each of its records: the section's length, the number of value rows, the section's address and GP.
#[derive(Clone, Copy)]
pub struct Setting {
    pub size: u64,
    pub rows: u64,
    pub address: u64,
    pub gp: u64,
}

/// A record: its bytes, its symbol's row, and what the call gives to it.
#[derive(Clone, Copy)]
pub struct Record<'a> {
    pub bytes: &'a [u8; RECORD],
    pub row: &'a [u8; ROW],
    pub setting: &'a Setting,
}

// One of a record's three numbers.
fn number(bytes: &[u8; RECORD], k: usize) -> u64
    requires { k < 3 }
    ensures { result ≡ M.number_in card64 k bytes.now }
{
    bytes_le::get(&bytes[8 * k..], 8)
}

pub fn offset(bytes: &[u8; RECORD]) -> u64
    ensures { result ≡ M.offset_in card64 bytes.now }
{
    number(bytes, 0)
}

pub fn rtype(bytes: &[u8; RECORD]) -> u64
    ensures { result ≡ M.type_in card64 bytes.now }
{
    number(bytes, 1) % (1 << 32)
}

pub fn symbol(bytes: &[u8; RECORD]) -> u64
    ensures { result ≡ M.symbol_in card64 bytes.now }
{
    number(bytes, 1) >> 32
}

/// PC is section address plus offset.
pub fn pc(bytes: &[u8; RECORD], setting: &Setting) -> u64
    ensures { result ≡ M.PC (as_setting setting.now) (seen bytes.now []) }
{
    numbers::plus(setting.address, offset(bytes))
}

impl<'a> Record<'a> {
    /// The record of these bytes, with its symbol's row out of the value bytes.
    pub fn new(bytes: &'a [u8; RECORD], values: &'a [u8], setting: &'a Setting) -> Record<'a>
        ensures bytes { result.bytes.now ≡ bytes.now }
        ensures row { result.row.now ≡ row_of (rows_of values.now) (M.symbol_in card64 bytes.now) }
        ensures setting { result.setting.now ≡ setting.now }
    {
        let row = values::row(values, symbol(bytes));
        Record {
            bytes,
            row,
            setting,
        }
    }

    pub fn offset(self) -> u64
        ensures { result ≡ M.offset_in card64 self.entry.bytes.now }
    {
        offset(self.bytes)
    }

    pub fn rtype(self) -> u64
        ensures { result ≡ M.type_in card64 self.entry.bytes.now }
    {
        rtype(self.bytes)
    }

    pub fn symbol(self) -> u64
        ensures { result ≡ M.symbol_in card64 self.entry.bytes.now }
    {
        symbol(self.bytes)
    }

    fn addend(self) -> u64
        ensures { result ≡ M.addend_in card64 self.entry.bytes.now }
    {
        number(self.bytes, 2)
    }

    pub fn pc(self) -> u64
        ensures { result ≡ M.PC (setting_in self.entry) (record_in self.entry) }
    {
        pc(self.bytes, self.setting)
    }

    // A value alone, with the addend, or with GP.
    fn sum(self, sum: Sum) -> u64
        ensures { result ≡ M.sum (setting_in self.entry) (record_in self.entry) (sum_from sum) }
    {
        match sum {
            Sum::Only(value) => values::value(self.row, value),
            Sum::WithA(value) => numbers::plus(values::value(self.row, value), self.addend()),
            Sum::WithGp(value) => numbers::plus(self.setting.gp, values::value(self.row, value)),
        }
    }

    /// A sum itself, or its distance from PC, of its upper part from PC's page, or from PC with its low 32 bits cleared.
    pub fn formula(self, formula: Formula) -> u64
        ensures { result ≡ M.formula (setting_in self.entry) (record_in self.entry) (formula_from formula) }
    {
        let x = self.sum(formula.sum());
        match formula {
            Formula::Whole(_) => x,
            Formula::LessPc(_) => numbers::minus(x, self.pc()),
            Formula::Pages(_) => numbers::minus(upper_part(x), numbers::cleared(12, self.pc())),
            Formula::Far(_) => numbers::minus(x, numbers::cleared(32, self.pc())),
        }
    }
}

// A target's upper part, taken after adding 800h: the instruction that goes with it adds the low 12 bits as a signed number, which from
// 800h up leads back a page.
fn upper_part(target: u64) -> u64
    ensures { result ≡ N.cleared 12 (N.plus 64 target 0x800) }
{
    numbers::cleared(12, numbers::plus(target, 0x800))
}
