// Numbers and tags read from text (document 01, "Script and its listing"). New here: the Rust reads no text.
// A text that is no such number or tag is answered by none; nothing else is refused.
#![tactic(auto)]

ghost use Rattle.std.specs.Prelude.{◌≡◌, [], ◌∷◌, MatchOption, ◌-◌, ◌^◌, ◌≤◌, ◌<◌, length};
ghost use Rattle.numerals.specs.Numerals.{split, colon, number_of, negated, unsigned, integer_of, joined, tag_of, optional_tag_of};
ghost use Rattle.numerals.specs.Told.{until, digits_of};

use tags::Tag;

// How many bytes of s stand before the first c: all of them where there is none.
pub fn find(s: &[u8], c: u8) -> usize
    ensures { (result ≡ until c s.now) × (result ≤ length s.now) }
{
    s.iter().position(|b| *b == c).unwrap_or(s.len())
}

fn digits(t: &[u8], most: u64) -> Option<u64>
    ensures { result ≡ digits_of most 0 t.now }
{
    let mut n: u64 = 0;
    for b in t {
        let b = *b;
        if b < b'0' || b'9' < b {
            return None;
        }
        n = n.checked_mul(10)?.checked_add(u64::from(b - b'0'))?;
        if most < n {
            return None;
        }
    }
    Some(n)
}

// The number, at most `most`, that the text spells.
pub fn number(t: &[u8], most: u64) -> Option<u64>
    ensures { result ≡ number_of most t.now }
{
    match t {
        [] | [b'0', _, ..] => None,
        _ => digits(t, most),
    }
}

fn negative(t: &[u8], half: u64) -> Option<i64>
    requires { half ≤ 2 ^ 63 }
    ensures { result ≡ negated (number_of half t.now) }
{
    match number(t, half)? {
        0 => None,
        // -k, whose size may be one more than an i64 holds.
        k => Some(!((k - 1) as i64)),
    }
}

fn positive(t: &[u8], most: u64) -> Option<i64>
    requires { most < 2 ^ 63 }
    ensures { result ≡ unsigned (number_of most t.now) }
{
    Some(number(t, most)? as i64)
}

fn integer(t: &[u8], half: u64) -> Option<i64>
    requires { (0 < half) × (half ≤ 2 ^ 63) }
    ensures { result ≡ integer_of half t.now }
{
    match t {
        [b'-', digits @ ..] => negative(digits, half),
        _ => positive(t, half - 1),
    }
}

// The tag of these three numbers, each of its width.
fn joined(s: &[u8], n: &[u8], m: &[u8]) -> Option<Tag>
    ensures { result ≡ joined (integer_of (2 ^ 63) s.now) (integer_of (2 ^ 31) n.now) (number_of (2 ^ 64 - 1) m.now) }
{
    Some(Tag {
        seconds: integer(s, 1 << 63)?,
        nanoseconds: integer(n, 1 << 31)? as i32,
        microstep: number(m, u64::MAX)?,
    })
}

// What stands before the first colon, and what stands after it.
fn cut(t: &[u8]) -> Option<(&[u8], &[u8])>
    ensures { MatchOption result (split colon t.now ≡ t.now ∷ []) (λ p. split colon t.now ≡ p.0.now ∷ split colon p.1.now) }
{
    let a = find(t, b':');
    if a < t.len() {
        Some((&t[..a], &t[a + 1..]))
    } else {
        None
    }
}

// The tag that the text spells.
pub fn tag(t: &[u8]) -> Option<Tag>
    ensures { result ≡ tag_of t.now }
{
    let (s, rest) = cut(t)?;
    let (n, m) = cut(rest)?;
    if cut(m).is_some() {
        return None;
    }
    joined(s, n, m)
}

// The tag that the text spells, where `-` says that it is absent.
pub fn optional_tag(t: &[u8]) -> Option<Option<Tag>>
    ensures { result ≡ optional_tag_of t.now }
{
    if octets::same_bytes(t, b"-") {
        return Some(None);
    }
    Some(Some(tag(t)?))
}
