// Numbers and tags as text (document 01, "Script and its listing"), put into lent room from a place on; the answer is the place after the run.
// New here: the Rust prints nothing. Nothing is refused: the callers lend room for the longest run of its kind, and every byte
// outside the run keeps its value.
// Kept: the room and a place in it are two parameters, here and in the crates above, since the promises by `Puts` name both.
#![tactic(auto)]

ghost use Rattle.std.specs.Prelude.{◌+◌, ◌^◌, ◌≤◌, ◌<◌, [], ◌∷◌, length};
ghost use Rattle.printing.specs.Printing.{digits_of, decimal, integer, tag_text, optional_tag_text};
ghost use Rattle.printing.specs.Runs.{Puts};

use tags::Tag;

// Puts the run.
pub fn put_text(out: &mut [u8], at: usize, run: &[u8]) -> usize
    requires { at + length run.now ≤ length out.old }
    ensures { Puts out.old at run.now (length run.now) result out.new }
{
    octets::put_run(out, at, run);
    at + run.len()
}

// Puts one byte.
pub fn put_byte(out: &mut [u8], at: usize, byte: u8) -> usize
    requires { at < length out.old }
    ensures { Puts out.old at (byte ∷ []) 1 result out.new }
{
    out[at] = byte;
    at + 1
}

fn put_digits(out: &mut [u8], at: usize, n: u64, most: usize) -> usize
    requires digits_enough { n < 10 ^ most }
    requires a_digit { 0 < most }
    requires in_room { at + most ≤ length out.old }
    ensures { Puts out.old at (digits_of most n) most result out.new }
{
    if n < 10 {
        return put_byte(out, at, b'0' + n as u8);
    }
    let last = put_digits(out, at, n / 10, most - 1);
    put_byte(out, last, b'0' + (n % 10) as u8)
}

// Puts n in decimal.
pub fn put_decimal(out: &mut [u8], at: usize, n: u64) -> usize
    requires { at + 20 ≤ length out.old }
    ensures { Puts out.old at (decimal n) 20 result out.new }
{
    put_digits(out, at, n, 20)
}

// Puts z in decimal, with a minus before a negative one.
pub fn put_integer(out: &mut [u8], at: usize, z: i64) -> usize
    requires { at + 21 ≤ length out.old }
    ensures { Puts out.old at (integer z) 21 result out.new }
{
    if z < 0 {
        let sign = put_byte(out, at, b'-');
        return put_decimal(out, sign, z.unsigned_abs());
    }
    put_decimal(out, at, z.unsigned_abs())
}

// Puts the tag's three numbers, joined by colons.
pub fn put_tag(out: &mut [u8], at: usize, tag: Tag) -> usize
    requires { at + 64 ≤ length out.old }
    ensures { Puts out.old at (tag_text tag) 64 result out.new }
{
    let seconds = put_integer(out, at, tag.seconds);
    let colon = put_byte(out, seconds, b':');
    let nanoseconds = put_integer(out, colon, i64::from(tag.nanoseconds));
    let second_colon = put_byte(out, nanoseconds, b':');
    put_decimal(out, second_colon, tag.microstep)
}

// Puts the tag, or `-` where it is absent.
pub fn put_optional_tag(out: &mut [u8], at: usize, tag: Option<Tag>) -> usize
    requires { at + 64 ≤ length out.old }
    ensures { Puts out.old at (optional_tag_text tag) 64 result out.new }
{
    match tag {
        None => put_byte(out, at, b'-'),
        Some(present) => put_tag(out, at, present),
    }
}
