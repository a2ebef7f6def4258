// One record of the list judged: its checks in their order, and the stack after it. Each match has the types of one class and hands on to
// the next by its default arm, and each arm reads like its lines of Table 10. Neighbouring types stand in different arms: of an arm of
// neighbours the compiler makes a test of a range, and not a jump. A type is its number, in all of these matches, and no enum: document 01
// speaks of types by their numbers, every number has an answer, and an enum of 89 cases would say each number a second time. It is handed on
// beside the record, out of which it is read once: what a match asks, the class of its types, is said of it.

#![tactic(auto)]

ghost use Rattle.std.specs.Prelude.{◌≡◌, [], ◌≤◌, ◌<◌, pos};
ghost use Rattle.std.proofs.Math.Bool as B;
ghost use Rattle.std.specs.Int.Signed.{lt_z};
ghost use Rattle.meaning.specs.Table as M;
ghost use Rattle.meaning.specs.Table.{semantics, any, of, whole, only, store_in};
ghost use Rattle.meaning.specs.Call as W;
ghost use Rattle.meaning.specs.Call.{card64, offset_in, type_in};
ghost use Rattle.meaning.specs.Checks as C;
ghost use Rattle.lemmas.specs.Passed.{refusal_of};
ghost use Rattle.refusals.specs.Numbers.{number_of, refusal_in};
ghost use Rattle.table.specs.Columns.{value_from, formula_from, range_from};
ghost use Rattle.table.specs.Keys.{class};
ghost use Rattle.records.specs.Given.{setting_in, record_in};
ghost use Rattle.steps.specs.Step.{Ready, Steps, value_refusal, place_refusal, range_refusal, beyond};

use records::Record;
use refusals::Refusal;
use stack::{Pair, Stack};
use table::Formula::{LessPc, Whole};
use table::Sum::Only;
use table::Value::{G, Gd, Ie, Plt, S, T};
use table::*;

// A record with its row looked up: past the rows nothing is present, so that one test of the row's mask serves refusals 6 and 7.
#[derive(Clone, Copy)]
struct Looked<'a> {
    rela: Record<'a>,
    ghost nothing: { Ready rela },
}

// ---- the checks of several classes

// Refusals 6 and 7, of the value that a type uses.
fn present(looked: Looked<'_>, value: Value) -> Result<(), Refusal>
    ensures { refusal_in result ≡ value_refusal (setting_in looked.entry.rela) (record_in looked.entry.rela) (value_from value) }
{
    let rela = looked.rela;
    values::check_value(rela.row, value, rela.setting.rows, rela.symbol())
}

// Refusal 8, of n bytes: a literal at each call, so that a type for counts of 1 and more would be made of the literal there.
fn outside(rela: Record<'_>, n: u32) -> bool
    requires { 1 ≤ n }
    ensures { result ≡ C.outside rela.entry.setting.now.size (offset_in card64 rela.entry.bytes.now) n }
{
    numbers::outside(rela.setting.size, rela.offset(), n)
}

// Refusals 8 and 9, of a word.
fn place(rela: Record<'_>) -> Result<(), Refusal>
    ensures { refusal_in result ≡ place_refusal (setting_in rela.entry) (record_in rela.entry) }
{
    let beside = outside(rela, 4);
    let unaligned = !numbers::multiple_of_4(rela.pc());
    if beside {
        return Err(Refusal::Outside);
    }
    if unaligned {
        return Err(Refusal::Unaligned);
    }
    Ok(())
}

// Whether a value is in its accepted range.
fn in_range(range: Range, z: i64) -> bool
    ensures { result ≡ B.not (beyond (range_from range) z) }
{
    match range.sign {
        Sign::Unsigned => numbers::in_unsigned(range.bits, z),
        Sign::Signed | Sign::MultipleOf4 => numbers::in_signed(range.bits, z),
    }
}

// Whether it is no multiple of 4 where its range asks for one.
fn no_multiple(range: Range, z: i64) -> bool
    ensures { result ≡ C.not_multiple (range_from range) z }
{
    range.sign == Sign::MultipleOf4 && !numbers::multiple_of_4(numbers::bits(z))
}

// Which way a value misses its range. Every range has 0 in it, so that below is where the negative ones miss.
fn missed(z: i64) -> Refusal
    ensures { number_of result ≡ B.cond (lt_z z (pos 0)) 18 14 }
{
    if z < 0 {
        Refusal::BelowRange
    } else {
        Refusal::AboveRange
    }
}

// Refusals 14, 18 and 15, of a value.
fn ranged(z: i64, range: Range) -> Result<(), Refusal>
    ensures { refusal_in result ≡ range_refusal (range_from range) z }
{
    let beyond = !in_range(range, z);
    let odd = no_multiple(range, z);
    if beyond {
        return Err(missed(z));
    }
    if odd {
        return Err(Refusal::NotMultiple);
    }
    Ok(())
}

// ---- the direct types, which leave the stack as it is

// A word with no range: its value is not asked for.
#[tactic(auto, unfolding(meaning::specs::Checks::first))]
fn word(looked: Looked<'_>, value: Value) -> Result<(), Refusal>
    ensures { refusal_in result
        ≡ refusal_of (setting_in looked.entry.rela) (record_in looked.entry.rela) (M.word (of (whole (only (value_from value)))) [] any) [] }
{
    present(looked, value)?;
    place(looked.rela)
}

// A word whose value has a range. Left to itself the compiler makes it a call from three arms, which takes 15 instructions a record more.
#[inline(always)]
#[tactic(auto, unfolding(meaning::specs::Checks::first))]
fn checked(looked: Looked<'_>, formula: Formula, range: Range) -> Result<(), Refusal>
    ensures { refusal_in result
        ≡ refusal_of (setting_in looked.entry.rela) (record_in looked.entry.rela) (M.word (of (formula_from formula)) [] (range_from range)) [] }
{
    present(looked, formula.sum().value())?;
    place(looked.rela)?;
    ranged(numbers::signed(looked.rela.formula(formula)), range)
}

// So many bytes of data.
#[tactic(auto, unfolding(meaning::specs::Checks::first))]
fn bytes(looked: Looked<'_>, value: Value, n: u32) -> Result<(), Refusal>
    requires { 1 ≤ n }
    ensures { refusal_in result
        ≡ refusal_of (setting_in looked.entry.rela) (record_in looked.entry.rela) (M.bytes store_in n (whole (only (value_from value)))) [] }
{
    present(looked, value)?;
    if outside(looked.rela, n) {
        return Err(Refusal::Outside);
    }
    Ok(())
}

// Types that do nothing, the run-time loader's, and those that are not named.
#[tactic(auto, using(crate::proofs::Laws::unclassed), unfolding(meaning::specs::Checks::first, meaning::specs::Table::table, meaning::specs::Table::look))]
fn others(rtype: u64) -> Result<(), Refusal>
    requires { class (semantics rtype) ≤ 0 }
    ensures { (c : W.Setting) (r : W.Record) → refusal_in result ≡ refusal_of c r (semantics rtype) [] }
{
    match rtype {
        0 | 20 | 57 | 100 => Ok(()),
        21 | 58 => Ok(()),
        3..=12 => Err(Refusal::LoaderType),
        _ => Err(Refusal::UnknownType),
    }
}

// 1, 2, 47 to 56, 99: bytes of data.
#[tactic(auto, unfolding(meaning::specs::Checks::first, meaning::specs::Table::table, meaning::specs::Table::look))]
fn data(rtype: u64, looked: Looked<'_>) -> Result<(), Refusal>
    requires { class (semantics rtype) ≤ 1 }
    ensures { refusal_in result ≡ refusal_of (setting_in looked.entry.rela) (record_in looked.entry.rela) (semantics rtype) [] }
{
    match rtype {
        47 | 52 => bytes(looked, S, 1),
        48 | 53 => bytes(looked, S, 2),
        49 | 54 => bytes(looked, S, 3),
        1 | 50 | 55 | 99 => bytes(looked, S, 4),
        2 | 51 | 56 => bytes(looked, S, 8),
        #[tactic(auto, using(table::specs::Keys::classed))]
        _ => others(rtype),
    }
}

// 64 to 98: words whose value is a formula's.
#[tactic(auto, unfolding(meaning::specs::Checks::first, meaning::specs::Table::table, meaning::specs::Table::look))]
fn words(rtype: u64, looked: Looked<'_>) -> Result<(), Refusal>
    requires { class (semantics rtype) ≤ 2 }
    ensures { refusal_in result ≡ refusal_of (setting_in looked.entry.rela) (record_in looked.entry.rela) (semantics rtype) [] }
{
    match rtype {
        64 => checked(looked, LessPc(S_PLUS_A), SIGNED18_BY4),
        65 => checked(looked, LessPc(S_PLUS_A), SIGNED23_BY4),
        66 => checked(looked, LessPc(S_PLUS_A), SIGNED28_BY4),
        67 | 69 | 71 | 73 => word(looked, S),
        68 | 70 | 72 | 74 => word(looked, S),
        75 | 77 | 79 | 81 => word(looked, G),
        76 | 78 | 80 | 82 => word(looked, G),
        83 | 85 => word(looked, T),
        84 | 86 => word(looked, T),
        87 | 89 | 91 | 93 | 96 | 98 => word(looked, Ie),
        88 | 90 | 92 | 94 => word(looked, Ie),
        95 | 97 => word(looked, Gd),
        #[tactic(auto, using(table::specs::Keys::classed))]
        _ => data(rtype, looked),
    }
}

// ---- the types that take from the stack or push onto it

// A word whose value is taken from the stack.
#[tactic(auto, using(crate::proofs::Laws::refused), unfolding(meaning::specs::Checks::first))]
fn pop(
    rela: Record<'_>,
    entries: &[i64; Stack::DEPTH],
    stack: Stack,
    range: Range,
) -> Result<Stack, Refusal>
    ensures { Steps (setting_in rela.entry) (record_in rela.entry) (M.word M.stack [] (range_from range)) entries.now stack.height entries.now result }
{
    place(rela)?;
    let Some((z, below)) = stack.take(entries) else {
        return Err(Refusal::StackEmpty);
    };
    ranged(z, range)?;
    Ok(below)
}

// A formula's value onto the stack.
#[tactic(auto, using(crate::proofs::Laws::refused), unfolding(meaning::specs::Checks::first))]
fn push(
    looked: Looked<'_>,
    entries: &mut [i64; Stack::DEPTH],
    stack: Stack,
    formula: Formula,
) -> Result<Stack, Refusal>
    ensures { Steps (setting_in looked.entry.rela) (record_in looked.entry.rela) (M.push (formula_from formula)) entries.old stack.height entries.new result }
{
    present(looked, formula.sum().value())?;
    let x = looked.rela.formula(formula);
    stack.put(entries, numbers::signed(x))
}

// 38 to 46: words whose value is taken from the stack.
#[tactic(auto, unfolding(meaning::specs::Table::table, meaning::specs::Table::look))]
fn pops(
    rtype: u64,
    looked: Looked<'_>,
    entries: &[i64; Stack::DEPTH],
    stack: Stack,
) -> Result<Stack, Refusal>
    requires { class (semantics rtype) ≤ 3 }
    ensures { Steps (setting_in looked.entry.rela) (record_in looked.entry.rela) (semantics rtype) entries.now stack.height entries.now result }
{
    let rela = looked.rela;
    match rtype {
        38 => pop(rela, entries, stack, SIGNED5),
        39 => pop(rela, entries, stack, UNSIGNED12),
        40 => pop(rela, entries, stack, SIGNED12),
        41 => pop(rela, entries, stack, SIGNED16),
        42 => pop(rela, entries, stack, SIGNED18_BY4),
        43 => pop(rela, entries, stack, SIGNED20),
        44 => pop(rela, entries, stack, SIGNED23_BY4),
        45 => pop(rela, entries, stack, SIGNED28_BY4),
        46 => pop(rela, entries, stack, UNSIGNED32),
        #[tactic(auto, using(table::specs::Keys::classed))]
        _ => {
            words(rtype, looked)?;
            Ok(stack)
        }
    }
}

// One record's step: 22 to 37, pushes and operations, and the others by their classes.
#[tactic(auto, unfolding(meaning::specs::Checks::first, meaning::specs::Table::table, meaning::specs::Table::look, stack::specs::Tops::operation_stack, stack::specs::Tops::operation_refusal))]
pub fn step(
    rela: Record<'_>,
    entries: &mut [i64; Stack::DEPTH],
    stack: Stack,
) -> Result<Stack, Refusal>
    requires { Ready rela }
    ensures { Steps (setting_in rela.entry) (record_in rela.entry) (semantics (type_in card64 rela.entry.bytes.now)) entries.old stack.height entries.new result }
{
    let looked = Looked { rela };
    let rtype = rela.rtype();
    match rtype {
        22 => push(looked, entries, stack, LessPc(S_PLUS_A)),
        23 => push(looked, entries, stack, Whole(S_PLUS_A)),
        24 => stack.dup(entries),
        25 => push(looked, entries, stack, Whole(Only(G))),
        26 => push(looked, entries, stack, Whole(Only(T))),
        27 => push(looked, entries, stack, Whole(Only(Ie))),
        28 => push(looked, entries, stack, Whole(Only(Gd))),
        29 => push(looked, entries, stack, LessPc(Only(Plt))),
        30 => stack.assert(entries),
        31 => stack.not(entries),
        32 => stack.pair(Pair::Sub, entries),
        33 => stack.pair(Pair::Sl, entries),
        34 => stack.pair(Pair::Sr, entries),
        35 => stack.pair(Pair::Add, entries),
        36 => stack.pair(Pair::And, entries),
        37 => stack.if_else(entries),
        #[tactic(auto, using(table::specs::Keys::classed))]
        _ => pops(rtype, looked, entries, stack),
    }
}
