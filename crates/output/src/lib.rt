// The program's output: an answer, and the section where it was patched, written as text.

#![tactic(auto)]

ghost use Rattle.std.specs.Prelude.{◌++◌, ◌≡◌, ◌+◌, ◌*◌, ◌≤◌, ◌<◌, length, drop};
ghost use Rattle.meaning.specs.Checks.{answer_at, section_limit};
ghost use Rattle.meaning.specs.Frames as F;
ghost use Rattle.frames.specs.Text.{laid};
ghost use Rattle.output.specs.Text.{frame02, place_line, output_bytes};

// The longest output: a first line of 27 bytes, and a full section's 1,024 lines of 131.
pub const OUTPUT: usize = 134171;

// The digit for a number below 16. Lower case is written.
#[tactic(auto, unfolding(meaning::specs::Frames::digit_for))]
fn digit_for(d: u8) -> u8
    requires { d < 16 }
    ensures { result ≡ F.digit_for d }
{
    char::from_digit(u32::from(d), 16).unwrap() as u8
}

// Writes bytes into the front of `out`, two digits each. Not `hex::encode_to_slice`, which takes 10 instructions a byte and this 3: with it the
// program takes a fifth more.
#[tactic(auto, using(crate::proofs::Writer::bytes_next, crate::proofs::Writer::bytes_done))]
fn put_bytes(out: &mut [u8], bytes: &[u8])
    requires { 2 * length bytes.now ≤ length out.old }
    ensures { out.new ≡ laid 0 (F.digits_of bytes.now) out.old }
{
    for (i, b) in bytes.iter().enumerate() {
        out[2 * i] = digit_for(*b / 16);
        out[2 * i + 1] = digit_for(*b % 16);
    }
}

// Writes one 02 line into the front of `out`, and answers how long it is.
#[tactic(auto, using(crate::proofs::Writer::pieces))]
fn put_line(out: &mut [u8], bytes: &[u8]) -> usize
    requires { 2 * length bytes.now + 3 ≤ length out.old }
    ensures out_after { out.new ≡ laid 0 (frame02 bytes.now) out.old }
    ensures value { result ≡ 2 * length bytes.now + 3 }
{
    put_bytes(out, &[2]);
    put_bytes(&mut out[2..], bytes);
    let end = 2 * bytes.len() + 2;
    out[end] = b'\n';
    end + 1
}

// Writes the section as 02 lines of 64 bytes, the last shorter, and answers how long they are.
#[tactic(auto, using(crate::proofs::Writer::section_end, frames::proofs::Laws::laid_none))]
fn put_section(out: &mut [u8], section: &[u8]) -> usize
    requires { length (F.section_lines section.now) ≤ length out.old }
    ensures out_after { out.new ≡ laid 0 (F.section_lines section.now) out.old }
    ensures value { result ≡ length (F.section_lines section.now) }
{
    let mut end = 0;
    for piece in section.chunks(frames::LINE) {
        end += put_line(&mut out[end..], piece);
    }
    end
}

// Writes a place, an offset and the line's end into the front of `out`, and answers how long they are.
#[tactic(auto, using(crate::proofs::Writer::pieces))]
fn put_place(out: &mut [u8], place: u32, offset: u64) -> usize
    requires { 25 ≤ length out.old }
    ensures out_after { out.new ≡ laid 0 (place_line place offset) out.old }
    ensures value { result ≡ 25 }
{
    put_bytes(out, &place.to_be_bytes());
    put_bytes(&mut out[8..], &offset.to_be_bytes());
    out[24] = b'\n';
    25
}

// Writes the program's output for an answer and a section into the front of `out`, and answers how long it is. It is not inlined: where a
// caller has both in one struct, the compiler does not see that they are apart, and writes one digit after the other.
// A refusal comes as its number, and 0 as none: the clauses speak of every number, and docs/PROMISES.md names this function by them.
#[inline(never)]
#[tactic(auto, using(crate::proofs::Writer::whole))]
pub fn write(section: &[u8], number: u32, place: u32, offset: u64, out: &mut [u8]) -> usize
    requires section_len_bound { length section.now ≤ section_limit }
    requires out_len { length out.old ≡ output_bytes }
    ensures out_after { out.new ≡ F.written (answer_at number place offset) section.now ++ drop result out.old }
    ensures value { result ≡ length (F.written (answer_at number place offset) section.now) }
{
    if number == 0 {
        put_bytes(out, &[0]);
        let end = 2 + put_place(&mut out[2..], place, offset);
        return end + put_section(&mut out[end..], section);
    }
    put_bytes(out, &[255, (number % 256) as u8]);
    4 + put_place(&mut out[4..], place, offset)
}
