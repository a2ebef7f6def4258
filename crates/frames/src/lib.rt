// The program's input: frames read into lent buffers.

#![tactic(auto)]

ghost use Rattle.std.specs.Prelude.{true, false, cond, ◌&&◌, ◌≡◌, ◌+◌, ◌-◌, ◌*◌, ◌/◌, ◌%◌, ◌≤◌, ◌<◌, eqb, ltb, length, take, MatchResult};
ghost use Rattle.std.specs.List.{prefix_len};
ghost use Rattle.std.specs.Simd.{first_chunks};
ghost use Rattle.meaning.specs.Call.{card64};
ghost use Rattle.meaning.specs.Checks.{section_limit, values_limit};
ghost use Rattle.meaning.specs.Frames as F;
ghost use Rattle.frames.specs.Text.{line_length, FirstLine, digits_length, IsFrame, laid};
ghost use Rattle.frames.specs.Kinds.{kind_number, last_number, kind_numbered};
ghost use Rattle.frames.specs.Gathered.{reading_in, gathered_in, Filled, Within, over_in, own, gathered_with};

use refusals::{Refusal, Refused};
use sizes::*;

// The most section bytes of a frame.
pub const LINE: usize = 64;

// ---- a line

// Whether a byte is a digit, of either letter case.
#[tactic(auto, unfolding(meaning::specs::Frames::digit))]
fn is_digit(b: u8) -> bool
    ensures { result ≡ ltb (F.digit b) 16 }
{
    b.is_ascii_hexdigit()
}

// Whether sixteen bytes are digits. No test waits for another, so that the compiler can make them on all bytes at once.
fn all_digits(piece: &[u8; 16]) -> bool
    ensures { result ≡ F.all_digits piece.now }
{
    piece.iter().fold(true, |all, b| all & is_digit(*b))
}

// How many whole pieces of sixteen bytes are digits before the first that is not.
fn whole_pieces(text: &[u8]) -> usize
    ensures { result ≡ prefix_len F.all_digits (first_chunks 16 (length text.now / 16) text.now) }
{
    let (pieces, _) = text.as_chunks::<16>();
    pieces.iter().take_while(|piece| all_digits(piece)).count()
}

// How many bytes are digits before the first that is not.
fn single_digits(text: &[u8]) -> usize
    ensures { result ≡ prefix_len (λ b. ltb (F.digit b) 16) text.now }
{
    text.iter().take_while(|b| is_digit(**b)).count()
}

// How many digits a text begins with.
#[tactic(auto, using(crate::proofs::Laws::whole_and_single))]
fn digits_len(text: &[u8]) -> usize
    ensures { result ≡ digits_length text.now }
{
    let whole = 16 * whole_pieces(text);
    let (_, left) = text.split_at(whole);
    whole + single_digits(left)
}

// The line that a text begins with, and the text after its line feed. A bad line is one with a byte that is no digit.
#[tactic(auto, using(crate::proofs::Laws::digits_inside))]
fn first_line(text: &[u8]) -> Result<(&[u8], &[u8]), Refusal>
    ensures { MatchResult result (λ p. FirstLine text.now p.0.now p.1.now)
        (λ refusal. (refusal ≡ Refusal.BadLine) × (F.all_digits (take (line_length text.now) text.now) ≡ false)) }
{
    let (line, left) = text.split_at(digits_len(text));
    match left {
        [] => Ok((line, left)),
        [b'\n', rest @ ..] => Ok((line, rest)),
        _ => Err(Refusal::BadLine),
    }
}

// The number that a digit stands for: 0 to 9 are 48 to 57, A to F are 65 to 70, a to f 97 to 102. Arithmetic, since `char::to_digit` keeps
// the compiler from decoding eight bytes at once: with it the program takes 2.9 times the instructions, and with a match 2.4 times.
#[tactic(auto, unfolding(meaning::specs::Frames::digit))]
fn value(digit: u8) -> u8
    requires { F.digit digit < 16 }
    ensures { result ≡ F.digit digit }
{
    if digit < 64 {
        return digit % 16;
    }
    digit % 16 + 9
}

// The byte of two digits.
fn byte(high: u8, low: u8) -> u8
    requires { (F.digit high < 16) × (F.digit low < 16) }
    ensures { result ≡ 16 * F.digit high + F.digit low }
{
    16 * value(high) + value(low)
}

// The eight bytes of sixteen digits. `hex::decode_to_slice` would test each digit again, one after the other: it takes 24 instructions a
// byte, and this 3. That they are digits is a clause here and below, and no type: `as_chunks` cuts pieces of bare bytes.
#[tactic(auto, using(crate::proofs::Laws::eight_bytes))]
fn eight(digits: &[u8; 16]) -> [u8; 8]
    requires { F.all_digits digits.now ≡ true }
    ensures { result ≡ F.bytes_in digits.now }
{
    let (pairs, _) = digits.as_chunks::<2>();
    let mut bytes = [0; 8];
    for (i, pair) in pairs.iter().enumerate() {
        bytes[i] = byte(pair[0], pair[1]);
    }
    bytes
}

// The number of sixteen digits.
fn number(digits: &[u8; 16]) -> u64
    requires { F.all_digits digits.now ≡ true }
    ensures { result ≡ F.numeral 0 digits.now }
{
    u64::from_be_bytes(eight(digits))
}

// Lays the bytes of digits into the front of a buffer.
fn lay(buffer: &mut [u8], digits: &[u8])
    requires all_digits { F.all_digits digits.now ≡ true }
    requires room { length digits.now / 2 ≤ length buffer.old }
    ensures { buffer.new ≡ laid 0 (F.bytes_in digits.now) buffer.old }
{
    let (pieces, left) = digits.as_chunks::<16>();
    for (i, piece) in pieces.iter().enumerate() {
        buffer[8 * i..8 * i + 8].copy_from_slice(&eight(piece));
    }
    let whole = 8 * pieces.len();
    let (pairs, _) = left.as_chunks::<2>();
    for (i, pair) in pairs.iter().enumerate() {
        buffer[whole + i] = byte(pair[0], pair[1]);
    }
}

// ---- a frame

// The kinds of frames, in the order in which they come.
#[derive(Clone, Copy, Debug, PartialEq, Eq, PartialOrd, Ord)]
enum Kind {
    Numbers,
    Section,
    Row,
    Record,
}

impl TryFrom<u8> for Kind {
    type Error = Refusal;

    ghost try_from_gives = { λ n kind. kind ≡ kind_numbered n };

    fn try_from(number: u8) -> Result<Kind, Refusal> {
        match number {
            1 => Ok(Kind::Numbers),
            2 => Ok(Kind::Section),
            3 => Ok(Kind::Row),
            4 => Ok(Kind::Record),
            _ => Err(Refusal::BadLine),
        }
    }
}

impl Kind {
    // How many bytes a frame of each kind has.
    #[tactic(auto, unfolding(meaning::specs::Frames::sized))]
    fn has_size(self, n: usize) -> bool
        ensures { result ≡ F.sized (kind_number self) n }
    {
        match self {
            Kind::Numbers => n == 16,
            Kind::Section => 1 <= n && n <= LINE,
            Kind::Row => n == ROW,
            Kind::Record => n == RECORD,
        }
    }

    // Whether a frame of this kind may come after the last one: one of numbers first, and from then on kinds never fall.
    #[tactic(auto, unfolding(meaning::specs::Frames::follows))]
    fn may_follow(self, last: Option<Kind>) -> bool
        ensures { result ≡ F.follows (last_number last) (kind_number self) }
    {
        match last {
            None => self == Kind::Numbers,
            Some(last) => self != Kind::Numbers && last <= self,
        }
    }

    // Whether n digits after a kind's own two make a frame of it, after one of kind `last`. The size is tested last: what comes after it goes
    // by the kind again, and so the compiler branches once on it.
    fn makes_frame(self, n: usize, last: Option<Kind>) -> bool
        ensures { result ≡ ((eqb (n % 2) 0 && F.follows (last_number last) (kind_number self)) && F.sized (kind_number self) (n / 2)) }
    {
        n % 2 == 0 && self.may_follow(last) && self.has_size(n / 2)
    }
}

// A well-formed frame: its kind, and the digits of its bytes, two to a byte.
#[derive(Clone, Copy)]
struct Frame<'a> {
    kind: Kind,
    digits: &'a [u8],
    ghost all_digits: { F.all_digits digits.now ≡ true },
    ghost sized: { F.sized (kind_number kind) (length digits.now / 2) ≡ true },
}

impl<'a> Frame<'a> {
    // A line of digits as the frame that it is after one of kind `last`.
    fn in_line(line: &'a [u8], last: Option<Kind>) -> Result<Frame<'a>, Refusal>
        requires { F.all_digits line.now ≡ true }
        ensures { MatchResult result (λ frame. IsFrame (last_number last) line.now (kind_number frame.kind) frame.digits.now)
            (λ refusal. (refusal ≡ Refusal.BadLine) × (F.well_formed (last_number last) line.now ≡ false)) }
    {
        let [high, low, digits @ ..] = line else {
            return Err(Refusal::BadLine);
        };
        let kind = Kind::try_from(byte(*high, *low))?;
        if !kind.makes_frame(digits.len(), last) {
            return Err(Refusal::BadLine);
        }
        Ok(Frame { kind, digits })
    }
}

// What was read: the two numbers, and how many bytes each buffer holds.
// The counts stand beside the buffers, and are no slices: `Filled` in the clauses of `read`, and the laws `same-section`, `same-values` and
// `same_records`, speak of every byte that was lent, past the counts too.
#[derive(Clone, Copy, Debug, Default, PartialEq, Eq)]
pub struct Gathered {
    pub address: u64,
    pub gp: u64,
    pub section: usize,
    pub values: usize,
    pub records: usize,
}

// Why reading stopped, and what was read before.
#[derive(Clone, Copy, Debug, PartialEq, Eq)]
pub struct Fault {
    pub refused: Refused,
    pub gathered: Gathered,
}

impl Gathered {
    // The place of the frame's buffer (0 section, 1 records, 2 values) where the frame takes it past its limit.
    fn over(self, frame: Frame) -> Option<u32>
        requires { Within self.section self.values self.records }
        ensures { let n = length frame.entry.digits.now / 2 in let k = kind_number frame.entry.kind in
            result ≡ over_in (self.section + cond (eqb k 2) n 0) (self.values + cond (eqb k 3) n 0) (self.records + cond (eqb k 4) n 0) }
    {
        let n = frame.digits.len() / 2;
        match frame.kind {
            Kind::Numbers => None,
            Kind::Section => (SECTION_LIMIT - self.section < n).then_some(0),
            Kind::Record => (RECORDS_LIMIT - self.records < n).then_some(1),
            Kind::Row => (VALUES_LIMIT - self.values < n).then_some(2),
        }
    }

    fn fault(self, refusal: Refusal, place: u32) -> Fault
        ensures { result ≡ record { refused = record { refusal = refusal; place = place }; gathered = self } }
    {
        Fault {
            refused: Refused { refusal, place },
            gathered: self,
        }
    }
}

// Gathers a frame: its two numbers, or its bytes, laid into the one buffer that its kind names.
#[tactic(auto, using(crate::proofs::Laws::laid_none, crate::proofs::Laws::laid_after), unfolding(meaning::specs::Frames::sized))]
fn gather(
    got: Gathered,
    frame: Frame,
    section: &mut [u8],
    values: &mut [u8],
    records: &mut [u8],
) -> Gathered
    requires section_room { got.section + cond (eqb (kind_number frame.kind) 2) (length frame.digits.now / 2) 0 ≤ length section.old }
    requires values_room { got.values + cond (eqb (kind_number frame.kind) 3) (length frame.digits.now / 2) 0 ≤ length values.old }
    requires records_room { got.records + cond (eqb (kind_number frame.kind) 4) (length frame.digits.now / 2) 0 ≤ length records.old }
    ensures value { result ≡ gathered_with (kind_number frame.entry.kind) frame.entry.digits.now got }
    ensures section_after { section.new ≡ laid got.section (own (kind_number frame.entry.kind) 2 frame.entry.digits.now) section.old }
    ensures values_after { values.new ≡ laid got.values (own (kind_number frame.entry.kind) 3 frame.entry.digits.now) values.old }
    ensures records_after { records.new ≡ laid got.records (own (kind_number frame.entry.kind) 4 frame.entry.digits.now) records.old }
{
    let n = frame.digits.len() / 2;
    match frame.kind {
        Kind::Numbers => {
            let (numbers, _) = frame.digits.as_chunks::<16>();
            Gathered {
                address: number(&numbers[0]),
                gp: number(&numbers[1]),
                ..got
            }
        }
        Kind::Section => {
            lay(&mut section[got.section..], frame.digits);
            Gathered {
                section: got.section + n,
                ..got
            }
        }
        Kind::Row => {
            lay(&mut values[got.values..], frame.digits);
            Gathered {
                values: got.values + n,
                ..got
            }
        }
        Kind::Record => {
            lay(&mut records[got.records..], frame.digits);
            Gathered {
                records: got.records + n,
                ..got
            }
        }
    }
}

// Reads all frames into the three buffers, line by line up to the first fault. The bytes past those counted stay as they came.
// The buffers are three parameters, since those clauses and laws name each, whole, as it was lent.
pub fn read(
    input: &[u8],
    section: &mut [u8],
    values: &mut [u8],
    records: &mut [u8],
) -> Result<Gathered, Fault>
    requires section_len { length section.old ≡ section_limit }
    requires values_len { length values.old ≡ values_limit }
    requires records_len { length records.old ≡ card64.records_limit }
    ensures reading { reading_in result section.new values.new records.new ≡ F.reading_of input.now }
    ensures section_filled { Filled section_limit (gathered_in result).section section.old section.new }
    ensures values_filled { Filled values_limit (gathered_in result).values values.old values.new }
    ensures records_filled { Filled card64.records_limit (gathered_in result).records records.old records.new }
{
    let mut got = Gathered::default();
    let mut last = None;
    // counted along: where a line ends is known only as it is read, and an iterator of lines would say the whole loop over again in its `next`
    let mut lines: u32 = 0;
    let mut left = input;
    while !left.is_empty() {
        let fault = |refusal| got.fault(refusal, lines);
        let (line, rest) = first_line(left).map_err(fault)?;
        let frame = Frame::in_line(line, last).map_err(fault)?;
        if let Some(place) = got.over(frame) {
            return Err(got.fault(Refusal::TooLong, place));
        }
        // only now is any of its bytes stored
        got = gather(got, frame, section, values, records);
        last = Some(frame.kind);
        lines += 1;
        left = rest;
    }
    match last {
        None => Err(got.fault(Refusal::BadLine, lines)),
        Some(_) => Ok(got),
    }
}
