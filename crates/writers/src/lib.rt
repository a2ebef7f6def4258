// The writing of a record that was judged before: a field's parts into a word, or bytes stored, added to or subtracted from, at the place
// that the section lends, and the stack after it. The checks are not made again. Each match has the types of one class and hands on to
// the next by its default arm, and each arm is its lines of Table 10: what is put, and where. A type is its number in these matches, and no
// enum, and is handed on beside the record, as in `steps`. The section stands beside the record because it is lent to be written, and a
// record is copied. That n bytes at the place are inside the section is a clause and no type: n is each arm's own.

#![tactic(auto)]

ghost use Rattle.std.specs.Prelude.{◌≡◌, false, [], ◌+◌, ◌≤◌, ◌<◌, length};
ghost use Rattle.meaning.specs.Numbers.{number, bytes_of, plus};
ghost use Rattle.meaning.specs.Table as M;
ghost use Rattle.meaning.specs.Table.{semantics, any, whole, with_A, store_in, add_to, subtract_from};
ghost use Rattle.meaning.specs.Field as F;
ghost use Rattle.meaning.specs.Call.{card64, offset_in, type_in};
ghost use Rattle.meaning.specs.Checks as C;
ghost use Rattle.meaning.specs.Stack.{depth, after};
ghost use Rattle.meaning.specs.Patch.{replaced, effect};
ghost use Rattle.table.specs.Columns.{formula_from};
ghost use Rattle.table.specs.Keys.{class};
ghost use Rattle.stack.specs.Tops.{tops, Holds};
ghost use Rattle.records.specs.Given.{setting_in, record_in};
ghost use Rattle.writers.specs.Written.{parts_from, Popping, Popped, Judged, Writes};

use records::Record;
use stack::{Pair, Stack};
use table::Formula::{Far, LessPc, Pages, Whole};
use table::Sum::Only;
use table::Value::{G, Gd, Ie, Plt, T};
use table::*;

// ---- the writers, each lent the bytes that it writes and no other

// A word's field, each of its parts shifted and masked into it.
#[tactic(auto, unfolding(meaning::specs::Field::put))]
fn put_field<const N: usize>(part: &mut [u8], x: u64, parts: [Part; N])
    requires { length part.old ≡ 4 }
    ensures { part.new ≡ bytes_of 4 (F.put (parts_from parts.entry) x (number part.old)) }
{
    let mut word = bytes_le::get(part, 4);
    for p in parts {
        word = fields::insert(word, x, p.low, p.many, p.at);
    }
    bytes_le::put(part, 4, word);
}

// Bytes with x added, modulo their width.
fn add_to(part: &mut [u8], x: u64)
    requires { length part.old ≤ 8 }
    ensures { part.new ≡ bytes_of (length part.old) (plus 64 x (number part.old)) }
{
    let n = part.len();
    let old = bytes_le::get(part, n);
    bytes_le::put(part, n, numbers::plus(x, old));
}

// ---- at a record's place. Each lends the part itself: a function that handed it back would promise how the section ends, and a closure that
// is lent it what it writes, in place of what is written here.

fn field<const N: usize>(section: &mut [u8], rela: Record<'_>, x: u64, parts: [Part; N])
    requires { offset_in card64 rela.bytes.now + 4 ≤ length section.old }
    ensures { section.new ≡ replaced (offset_in card64 rela.entry.bytes.now) 4 (F.put (parts_from parts.entry) x) section.old }
{
    let at = rela.offset() as usize;
    let end = at + 4;
    put_field(&mut section[at..end], x, parts);
}

// A word with a formula's value.
fn word<const N: usize>(section: &mut [u8], rela: Record<'_>, formula: Formula, parts: [Part; N])
    requires { offset_in card64 rela.bytes.now + 4 ≤ length section.old }
    ensures { section.new ≡ effect (setting_in rela.entry) (record_in rela.entry) (M.word (M.of (formula_from formula)) (parts_from parts.entry) any) [] section.old }
{
    field(section, rela, rela.formula(formula), parts);
}

// n bytes stored, low bits kept.
fn store(section: &mut [u8], rela: Record<'_>, formula: Formula, n: usize)
    requires { (n ≤ 8) × (offset_in card64 rela.bytes.now + n ≤ length section.old) }
    ensures { section.new ≡ effect (setting_in rela.entry) (record_in rela.entry) (M.bytes store_in n (formula_from formula)) [] section.old }
{
    let x = rela.formula(formula);
    let at = rela.offset() as usize;
    let end = at + n;
    bytes_le::put(&mut section[at..end], n, x);
}

// S+A added to n bytes.
#[tactic(auto, using(lemmas::specs::Modulo::bytes_plus))]
fn add(section: &mut [u8], rela: Record<'_>, n: usize)
    requires { (n ≤ 8) × (offset_in card64 rela.bytes.now + n ≤ length section.old) }
    ensures { section.new ≡ effect (setting_in rela.entry) (record_in rela.entry) (M.bytes add_to n (whole (with_A M.S))) [] section.old }
{
    let x = rela.formula(Whole(S_PLUS_A));
    let at = rela.offset() as usize;
    let end = at + n;
    add_to(&mut section[at..end], x);
}

// S+A subtracted from n bytes: what is missing to 2 ^ 64 is added.
#[tactic(auto, using(crate::proofs::Laws::bytes_less))]
fn subtract(section: &mut [u8], rela: Record<'_>, n: usize)
    requires { (n ≤ 8) × (offset_in card64 rela.bytes.now + n ≤ length section.old) }
    ensures { section.new ≡ effect (setting_in rela.entry) (record_in rela.entry) (M.bytes subtract_from n (whole (with_A M.S))) [] section.old }
{
    let x = rela.formula(Whole(S_PLUS_A));
    let at = rela.offset() as usize;
    let end = at + n;
    add_to(&mut section[at..end], numbers::minus(0, x));
}

// 1, 2, 47 to 56, 99: bytes of data. What is left writes nothing.
#[tactic(auto, unfolding(meaning::specs::Table::table, meaning::specs::Table::look))]
fn data(rtype: u64, section: &mut [u8], rela: Record<'_>)
    requires class { class (semantics rtype) ≤ 1 }
    requires inside { C.outside (length section.old) (offset_in card64 rela.bytes.now) (C.writes (semantics rtype)) ≡ false }
    ensures { section.new ≡ effect (setting_in rela.entry) (record_in rela.entry) (semantics rtype) [] section.old }
{
    match rtype {
        1 => store(section, rela, Whole(S_PLUS_A), 4),
        2 => store(section, rela, Whole(S_PLUS_A), 8),
        47 => add(section, rela, 1),
        48 => add(section, rela, 2),
        49 => add(section, rela, 3),
        50 => add(section, rela, 4),
        51 => add(section, rela, 8),
        52 => subtract(section, rela, 1),
        53 => subtract(section, rela, 2),
        54 => subtract(section, rela, 3),
        55 => subtract(section, rela, 4),
        56 => subtract(section, rela, 8),
        99 => store(section, rela, LessPc(S_PLUS_A), 4),
        _ => {}
    }
}

// 64 to 98: words whose value is a formula's.
#[tactic(auto, unfolding(meaning::specs::Table::table, meaning::specs::Table::look))]
fn words(rtype: u64, section: &mut [u8], rela: Record<'_>)
    requires class { class (semantics rtype) ≤ 2 }
    requires inside { C.outside (length section.old) (offset_in card64 rela.bytes.now) (C.writes (semantics rtype)) ≡ false }
    ensures { section.new ≡ effect (setting_in rela.entry) (record_in rela.entry) (semantics rtype) [] section.old }
{
    match rtype {
        64 => word(section, rela, LessPc(S_PLUS_A), [MID16]),
        65 => word(section, rela, LessPc(S_PLUS_A), [HI5, MID16]),
        66 => word(section, rela, LessPc(S_PLUS_A), [HI10, MID16]),
        67 => word(section, rela, Whole(S_PLUS_A), [HI20]),
        68 | 72 => word(section, rela, Whole(S_PLUS_A), [LO12]),
        69 => word(section, rela, Whole(S_PLUS_A), [LO20_64]),
        70 => word(section, rela, Whole(S_PLUS_A), [HI12_64]),
        71 => word(section, rela, Pages(S_PLUS_A), [HI20]),
        73 => word(section, rela, Far(S_PLUS_A), [LO20_64]),
        74 => word(section, rela, Far(S_PLUS_A), [HI12_64]),
        75 => word(section, rela, Pages(GP_PLUS_G), [HI20]),
        76 | 80 => word(section, rela, Whole(GP_PLUS_G), [LO12]),
        77 => word(section, rela, Far(GP_PLUS_G), [LO20_64]),
        78 => word(section, rela, Far(GP_PLUS_G), [HI12_64]),
        79 => word(section, rela, Whole(GP_PLUS_G), [HI20]),
        81 => word(section, rela, Whole(GP_PLUS_G), [LO20_64]),
        82 => word(section, rela, Whole(GP_PLUS_G), [HI12_64]),
        83 => word(section, rela, Whole(Only(T)), [HI20]),
        84 => word(section, rela, Whole(Only(T)), [LO12]),
        85 => word(section, rela, Whole(Only(T)), [LO20_64]),
        86 => word(section, rela, Whole(Only(T)), [HI12_64]),
        87 => word(section, rela, Pages(GP_PLUS_IE), [HI20]),
        88 | 92 => word(section, rela, Whole(GP_PLUS_IE), [LO12]),
        89 => word(section, rela, Far(GP_PLUS_IE), [LO20_64]),
        90 => word(section, rela, Far(GP_PLUS_IE), [HI12_64]),
        91 | 96 | 98 => word(section, rela, Whole(GP_PLUS_IE), [HI20]),
        93 => word(section, rela, Whole(GP_PLUS_IE), [LO20_64]),
        94 => word(section, rela, Whole(GP_PLUS_IE), [HI12_64]),
        95 | 97 => word(section, rela, Pages(GP_PLUS_GD), [HI20]),
        #[tactic(auto, using(table::specs::Keys::classed))]
        _ => data(rtype, section, rela),
    }
}

// ---- the types that take from the stack or push onto it

// A word with the entry on top.
#[tactic(auto, unfolding(stack::specs::Tops::tops))]
fn pop<const N: usize>(
    section: &mut [u8],
    rela: Record<'_>,
    entries: &[i64; Stack::DEPTH],
    stack: Stack,
    parts: [Part; N],
) -> Stack
    requires { Popping rela stack.height section.old }
    ensures { Popped (parts_from parts.entry) rela.entry entries.now stack.height section.old result.height section.new }
{
    let top = stack.entry(entries, 0);
    field(section, rela, numbers::bits(top), parts);
    Stack {
        height: stack.height - 1,
    }
}

// A formula's value onto the stack.
fn push(
    rela: Record<'_>,
    entries: &mut [i64; Stack::DEPTH],
    stack: Stack,
    formula: Formula,
) -> Stack
    requires { stack.height < depth }
    ensures { Holds (after (setting_in rela.entry) (record_in rela.entry) (M.push (formula_from formula)) (tops entries.old stack.height)) entries.new result.height }
{
    let x = rela.formula(formula);
    stack.replace(entries, 0, numbers::signed(x))
}

// 38 to 46: words whose value is taken from the stack.
#[tactic(auto, using(crate::proofs::Laws::not_refused), unfolding(meaning::specs::Table::table, meaning::specs::Table::look))]
fn pops(
    rtype: u64,
    section: &mut [u8],
    rela: Record<'_>,
    entries: &[i64; Stack::DEPTH],
    stack: Stack,
) -> Stack
    requires class { class (semantics rtype) ≤ 3 }
    requires judged { Judged rela (semantics rtype) entries.now stack.height section.old }
    ensures { Writes (setting_in rela.entry) (record_in rela.entry) (semantics rtype) entries.now stack.height section.old entries.now result.height section.new }
{
    match rtype {
        38 => pop(section, rela, entries, stack, [LOW5]),
        39 => pop(section, rela, entries, stack, [LO12]),
        40 => pop(section, rela, entries, stack, [LO12]),
        41 => pop(section, rela, entries, stack, [LOW16]),
        42 => pop(section, rela, entries, stack, [MID16]),
        43 => pop(section, rela, entries, stack, [LOW20]),
        44 => pop(section, rela, entries, stack, [HI5, MID16]),
        45 => pop(section, rela, entries, stack, [HI10, MID16]),
        46 => pop(section, rela, entries, stack, [WORD]),
        #[tactic(auto, using(table::specs::Keys::classed, crate::proofs::Laws::not_refused))]
        _ => {
            words(rtype, section, rela);
            stack
        }
    }
}

// What a judged record writes, and the stack after it: 22 to 37, pushes and operations, and the others by their classes.
#[tactic(auto, using(crate::proofs::Laws::not_refused), unfolding(meaning::specs::Table::table, meaning::specs::Table::look, stack::specs::Tops::operation_stack))]
pub fn write(
    section: &mut [u8],
    rela: Record<'_>,
    entries: &mut [i64; Stack::DEPTH],
    stack: Stack,
) -> Stack
    requires { Judged rela (semantics (type_in card64 rela.bytes.now)) entries.old stack.height section.old }
    ensures { Writes (setting_in rela.entry) (record_in rela.entry) (semantics (type_in card64 rela.entry.bytes.now)) entries.old stack.height section.old entries.new result.height section.new }
{
    let rtype = rela.rtype();
    match rtype {
        22 => push(rela, entries, stack, LessPc(S_PLUS_A)),
        23 => push(rela, entries, stack, Whole(S_PLUS_A)),
        24 => stack.duplicate(entries),
        25 => push(rela, entries, stack, Whole(Only(G))),
        26 => push(rela, entries, stack, Whole(Only(T))),
        27 => push(rela, entries, stack, Whole(Only(Ie))),
        28 => push(rela, entries, stack, Whole(Only(Gd))),
        29 => push(rela, entries, stack, LessPc(Only(Plt))),
        30 => stack.asserted(entries),
        31 => stack.negate(entries),
        32 => stack.combine(Pair::Sub, entries),
        33 => stack.combine(Pair::Sl, entries),
        34 => stack.combine(Pair::Sr, entries),
        35 => stack.combine(Pair::Add, entries),
        36 => stack.combine(Pair::And, entries),
        37 => stack.choose(entries),
        #[tactic(auto, using(table::specs::Keys::classed))]
        _ => pops(rtype, section, rela, entries, stack),
    }
}
