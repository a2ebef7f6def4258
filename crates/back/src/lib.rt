// Read back: the immediate that a word holds, its low zeros restored and its sign as the type's accepted range has it.

#![tactic(auto)]

ghost use Rattle.std.specs.Prelude.{◌≡◌, ◌≤◌, true, map};
ghost use Rattle.meaning.specs.Call.{card64, semantics_on};
ghost use Rattle.meaning.specs.Checks as C;
ghost use Rattle.meaning.specs.ReadBack.{value_back};
ghost use Rattle.table.specs.Columns.{part_from};
ghost use Rattle.back.specs.Fields.{bits_in, Bare};
ghost use Rattle.back.specs.Immediates.{ReadsBack};

use refusals::Refusal;
use sizes::SECTION_LIMIT;
use table::*;

// Read back serves types 38 to 46 and 64 to 98. No other type has a field to read.
#[tactic(auto, using(crate::proofs::Laws::word_types))]
fn is_word(rtype: u64) -> bool
    ensures { result ≡ C.of_word (semantics_on card64 rtype) (λ source range. true) }
{
    matches!(rtype, 38..=46 | 64..=98)
}

// The field that the parts make side by side, the first the highest. Bare: its low zeros and its sign are not restored.
#[tactic(auto, using(crate::proofs::Laws::bare_parts))]
fn bare<const N: usize>(word: u64, parts: [Part; N]) -> u64
    requires { bits_in parts ≤ 64 }
    ensures { Bare (map part_from parts.entry) (bits_in parts.entry) word result }
{
    let mut field = 0;
    for part in parts {
        field = field << part.many | fields::extract(word, part.many, part.at);
    }
    field
}

// A word type's value, by the type's number (no enum, as in `steps`): signed where the accepted range has negative numbers, and times 4 where the field leaves out two low zeros.
#[tactic(auto, unfolding(meaning::specs::Table::table, meaning::specs::Table::look, meaning::specs::Field::bare, meaning::specs::Field::wide, meaning::specs::Field::lowest))]
fn value_in(rtype: u64, word: u64) -> i64
    requires { C.of_word (semantics_on card64 rtype) (λ source range. true) ≡ true }
    ensures { result ≡ value_back (semantics_on card64 rtype) word }
{
    match rtype {
        38 => numbers::signed_at(5, bare(word, [LOW5])),
        39 => bare(word, [LO12]) as i64,
        40 => numbers::signed_at(12, bare(word, [LO12])),
        41 => numbers::signed_at(16, bare(word, [LOW16])),
        42 | 64 => numbers::signed_at(18, bare(word, [MID16]) * 4),
        43 => numbers::signed_at(20, bare(word, [LOW20])),
        44 | 65 => numbers::signed_at(23, bare(word, [HI5, MID16]) * 4),
        45 | 66 => numbers::signed_at(28, bare(word, [HI10, MID16]) * 4),
        46 => bare(word, [WORD]) as i64,
        // 67 to 98 give the bare field. LO12 and 64_HI12 have the same bits of the word, and so have HI20 and 64_LO20. Neighbours stand in
        // different arms: an arm of neighbours becomes a range test.
        68 | 70 | 72 | 74 | 76 | 78 | 80 | 82 | 84 | 86 | 88 | 90 | 92 | 94 => {
            bare(word, [LO12]) as i64
        }
        _ => bare(word, [HI20]) as i64,
    }
}

// Any section and any numbers get an answer: the immediate that a word holds, or refusal 1, 4, 8 or 9, looked for in this order.
#[tactic(auto, unfolding(meaning::specs::Checks::first))]
pub fn read_back(section: &[u8], address: u64, offset: u64, rtype: u64) -> Result<i64, Refusal>
    ensures { ReadsBack section.now address offset rtype result }
{
    if section.len() > SECTION_LIMIT {
        return Err(Refusal::TooLong);
    }
    if !is_word(rtype) {
        return Err(Refusal::UnknownType);
    }
    if numbers::outside(section.len() as u64, offset, 4) {
        return Err(Refusal::Outside);
    }
    if !numbers::multiple_of_4(numbers::plus(address, offset)) {
        return Err(Refusal::Unaligned);
    }
    let word = bytes_le::get(&section[offset as usize..], 4);
    Ok(value_in(rtype, word))
}
