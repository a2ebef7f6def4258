// Patch: the whole list is judged, in the order of the checks, before the first byte is written.

#![tactic(auto)]

ghost use Rattle.std.specs.Prelude.{◌≡◌, [], ◌∷◌, ◌/◌, ◌≤◌, length};
ghost use Rattle.meaning.specs.Call.{row_bytes};
ghost use Rattle.meaning.specs.Checks as C;
ghost use Rattle.meaning.specs.Patch as P;
ghost use Rattle.refusals.specs.Numbers.{number_of, answer_of_checks};
ghost use Rattle.records.specs.Given.{as_setting, given};
ghost use Rattle.patch.specs.Answers.{answer_in, Patches, limit_checks, records_of_pieces, records_answer, most_records};

use records::{Record, Setting};
use refusals::{Refusal, Refused};
use sizes::*;
use stack::Stack;

/// A refusal, its place and its offset: the refused record's, and 0 where no record is refused.
#[derive(Clone, Copy, Debug, PartialEq, Eq)]
pub struct Fault {
    pub refusal: Refusal,
    pub place: u32,
    pub offset: u64,
}

impl From<Refused> for Fault {
    ghost from_gives = { λ refused fault. fault ≡ record { refusal = refused.refusal; place = refused.place; offset = 0 } };

    fn from(refused: Refused) -> Fault {
        Fault {
            refusal: refused.refusal,
            place: refused.place,
            offset: 0,
        }
    }
}

// One check of a call: its refusal, at this place, where it fails.
#[tactic(auto, unfolding(meaning::specs::Checks::first))]
fn check(fails: bool, refusal: Refusal, place: u32) -> Result<(), Refused>
    ensures { answer_of_checks result ≡ C.first (C.check (number_of refusal) place fails ∷ []) (C.answer 0 0) }
{
    if fails {
        return Err(Refused { refusal, place });
    }
    Ok(())
}

// Refusals 1 and 2: the limits and the whole pieces of the three buffers, given by their lengths.
#[tactic(auto, unfolding(meaning::specs::Checks::first))]
fn check_lengths(section: usize, records: usize, values: usize) -> Result<(), Refused>
    ensures { answer_of_checks result ≡ C.first (limit_checks section records values) (C.answer 0 0) }
{
    check(section > SECTION_LIMIT, Refusal::TooLong, 0)?;
    check(records > RECORDS_LIMIT, Refusal::TooLong, 1)?;
    check(values > VALUES_LIMIT, Refusal::TooLong, 2)?;
    check(records % RECORD != 0, Refusal::NotWhole, 1)?;
    check(values % ROW != 0, Refusal::NotWhole, 2)
}

// The whole list, each record with its symbol's row and the stack that the earlier ones left: the number of records, or the first refusal,
// which is 16 where entries are left.
fn judge(records: &[[u8; RECORD]], values: &[u8], setting: &Setting) -> Result<u32, Fault>
    requires { (length records.now ≤ most_records) × (setting.now.rows ≡ length values.now / row_bytes) }
    ensures { answer_in result ≡ records_answer (given setting.now values.now) records.now }
{
    let mut entries = [0i64; Stack::DEPTH];
    let mut stack = Stack::empty();
    for (i, bytes) in records.iter().enumerate() {
        let rela = Record::new(bytes, values, setting);
        // A match: by `map_err` and `?` the proof did not close at what the closure answers.
        stack = match steps::step(rela, &mut entries, stack) {
            Ok(after) => after,
            Err(refusal) => {
                return Err(Fault {
                    refusal,
                    place: i as u32,
                    offset: rela.offset(),
                });
            }
        };
    }
    let count = records.len() as u32;
    check(stack.height != 0, Refusal::StackLeft, count)?;
    Ok(count)
}

// Writes the whole list, which was judged before, each record with the section and the stack that the earlier ones left.
fn write_all(section: &mut [u8], records: &[[u8; RECORD]], values: &[u8], setting: &Setting)
    requires { (setting.now.size ≡ length section.old) × ((records_answer (given setting.now values.now) records.now).number ≡ 0) }
    ensures { section.new ≡ P.patched (as_setting setting.now) [] section.old (records_of_pieces (given setting.now values.now) records.now) }
{
    let mut entries = [0i64; Stack::DEPTH];
    let mut stack = Stack::empty();
    for bytes in records {
        let rela = Record::new(bytes, values, setting);
        stack = writers::write(section, rela, &mut entries, stack);
    }
}

// Any lengths, any bytes and any numbers get an answer: the number of records, or a refusal. A refused list leaves the section exactly as it
// came.
pub fn patch(
    section: &mut [u8],
    records: &[u8],
    values: &[u8],
    address: u64,
    gp: u64,
) -> Result<u32, Fault>
    ensures { Patches section.old records.now values.now address gp result section.new }
{
    check_lengths(section.len(), records.len(), values.len())?;
    values::check_masks(values)?;
    let setting = Setting {
        size: section.len() as u64,
        rows: (values.len() / ROW) as u64,
        address,
        gp,
    };
    let (records, _) = records.as_chunks::<RECORD>();
    let count = judge(records, values, &setting)?;
    write_all(section, records, values, &setting);
    Ok(count)
}
