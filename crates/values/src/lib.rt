// The value rows, seven u64 each: a mask, then S, G, PLT, T, IE, GD. A symbol's row as a part of the table, and the value in it that a
// type uses. Nothing else touches a value byte.

#![tactic(auto)]

ghost use Rattle.std.specs.Prelude.{◌≡◌, ◌≤◌, ◌<◌, ltb, length, bit_or, fold, position};
ghost use Rattle.meaning.specs.Call.{rows_of, row_of, no_row, mask, value_in, bit};
ghost use Rattle.meaning.specs.Checks as C;
ghost use Rattle.refusals.specs.Numbers.{refusal_in};
ghost use Rattle.table.specs.Columns.{value_from};
ghost use Rattle.values.specs.Values.{refusal_at, masks_answer};

use refusals::{Refusal, Refused};
use sizes::*;
use table::Value;

// Symbol 0's row, which stands in no table: S is present and 0, and nothing else is.
static SYMBOL_0: [u8; ROW] = [
    1, 0, 0, 0, 0, 0, 0, 0, 0, 0, 0, 0, 0, 0, 0, 0, 0, 0, 0, 0, 0, 0, 0, 0, 0, 0, 0, 0, 0, 0, 0, 0,
    0, 0, 0, 0, 0, 0, 0, 0, 0, 0, 0, 0, 0, 0, 0, 0, 0, 0, 0, 0, 0, 0, 0, 0,
];

// The row of a symbol past the rows: nothing is present.
static NO_ROW: [u8; ROW] = [0; ROW];

// The row of a symbol: the part of the table where it stands, or one of the two above.
#[tactic(auto, using(crate::proofs::Laws::row_found), unfolding(meaning::specs::Numbers::bytes_of))]
pub fn row(values: &[u8], symbol: u64) -> &[u8; ROW]
    ensures { result.now ≡ row_of (rows_of values.now) symbol }
{
    let Some(before) = symbol.checked_sub(1) else {
        return &SYMBOL_0;
    };
    let (rows, _) = values.as_chunks::<ROW>();
    rows.get(before as usize).unwrap_or(&NO_ROW)
}

fn mask(row: &[u8; ROW]) -> u64
    ensures { result ≡ mask row.now }
{
    bytes_le::get(row, 8)
}

// Refusal 6 where the symbol has no row, or 7 where its row lacks the value. A row that is none has nothing present: one test serves both.
#[tactic(auto, using(crate::proofs::Laws::none_present))]
pub fn check_value(row: &[u8; ROW], value: Value, rows: u64, symbol: u64) -> Result<(), Refusal>
    requires { rows < symbol → row.now ≡ no_row }
    ensures { refusal_in result ≡ refusal_at row.now (bit (value_from value)) rows symbol }
{
    if (mask(row) >> value.bit()) % 2 == 1 {
        return Ok(());
    }
    if rows < symbol {
        return Err(Refusal::NoSuchSymbol);
    }
    Err(Refusal::ValueAbsent)
}

// The word of a row that stands for a value.
pub fn value(row: &[u8; ROW], value: Value) -> u64
    ensures { result ≡ value_in (value_from value) row.now }
{
    let word = 8 * (1 + value.bit() as usize);
    bytes_le::get(&row[word..], 8)
}

// All the masks or-ed: where that is at most 63, each of them is.
fn all_masks(rows: &[[u8; ROW]]) -> u64
    ensures { result ≡ fold (λ all row. bit_or all (mask row)) 0 rows.now }
{
    rows.iter().fold(0, |all, row| all | mask(row))
}

fn first_above(rows: &[[u8; ROW]]) -> Option<usize>
    ensures { result ≡ position (λ row. ltb C.mask_limit (mask row)) rows.now }
{
    rows.iter().position(|row| mask(row) > MASK_LIMIT)
}

// Refusal 3: the first row whose mask is above 63. It is looked for only where there is one.
#[tactic(auto, using(crate::proofs::Laws::masks_answered))]
pub fn check_masks(values: &[u8]) -> Result<(), Refused>
    requires { length values.now ≤ C.values_limit }
    ensures { masks_answer result ≡ C.first (C.of_masks 0 (rows_of values.now)) (C.answer 0 0) }
{
    let (rows, _) = values.as_chunks::<ROW>();
    if all_masks(rows) <= MASK_LIMIT {
        return Ok(());
    }
    match first_above(rows) {
        None => Ok(()),
        Some(row) => Err(Refused {
            refusal: Refusal::BadMask,
            place: row as u32,
        }),
    }
}
