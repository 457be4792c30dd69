// Tags (document 01, "Tags"; time.rs): the type, its order, properness, and tags that may be absent.
// Every function is total and refuses nothing; `delay` stands in a crate of its own.
#![tactic(auto)]

ghost use Rattle.std.specs.Prelude.{◌≡◌};
ghost use Rattle.tags.specs.Tags.{◌≤ₜ◌, ◌≡ₜ◌, lesser_of, greater_of, never, zero, forever, within_second, opposite_signs, proper_time, is_proper};
ghost use Rattle.tags.specs.Tags.{proper_if_present, is_present, is_below, is_at_or_below, within, same_optional};
ghost use Rattle.tags.specs.Tags.{lesser_present, greater_present, lesser_of_both, capped_by};

// A point of logical time: an offset from the origin, and a step at it.
#[repr(C)]
#[derive(Clone, Copy, Debug, PartialEq, Eq, PartialOrd, Ord)]
pub struct Tag {
    // Whole seconds from the origin of logical time.
    pub seconds: i64,
    // Nanoseconds past them, of the same sign in a proper tag.
    pub nanoseconds: i32,
    // The superdense step at that time.
    pub microstep: u64,
}

impl Tag {
    // The least tag.
    pub const NEVER: Tag = Tag {
        seconds: -9223372036854775808,
        nanoseconds: -999999999,
        microstep: 0,
    };

    // The origin of logical time.
    pub const ZERO: Tag = Tag {
        seconds: 0,
        nanoseconds: 0,
        microstep: 0,
    };

    // The greatest tag.
    pub const FOREVER: Tag = Tag {
        seconds: 9223372036854775807,
        nanoseconds: 999999999,
        microstep: 18446744073709551615,
    };
}

// The constants as functions. Kept: what may not change, public functions whose promises say what the constants are.
pub fn never() -> Tag
    ensures { result ≡ never }
{
    Tag::NEVER
}

pub fn zero() -> Tag
    ensures { result ≡ zero }
{
    Tag::ZERO
}

pub fn forever() -> Tag
    ensures { result ≡ forever }
{
    Tag::FOREVER
}

// Whether a is at or below b in the order of tags.
// Kept: derived, `a <= b`, a call by value took 1,467 and 2,481 instructions at n = 1 and 32, in place of 1,447 and 2,448, over the bar of 1,455 and 2,456.
pub fn at_or_below(a: Tag, b: Tag) -> bool
    ensures { result ≡ (a ≤ₜ b) }
{
    if a.seconds < b.seconds {
        return true;
    }
    if b.seconds < a.seconds {
        return false;
    }
    if a.nanoseconds < b.nanoseconds {
        return true;
    }
    if b.nanoseconds < a.nanoseconds {
        return false;
    }
    a.microstep <= b.microstep
}

// Whether each is at or below the other.
pub fn same_tag(a: Tag, b: Tag) -> bool
    ensures { result ≡ (a ≡ₜ b) }
{
    a == b
}

// The lesser of the two.
pub fn lesser(a: Tag, b: Tag) -> Tag
    ensures { result ≡ lesser_of a b }
{
    a.min(b)
}

// The greater of the two.
pub fn greater(a: Tag, b: Tag) -> Tag
    ensures { result ≡ greater_of a b }
{
    a.max(b)
}

fn within_second(nanoseconds: i32) -> bool
    ensures { result ≡ within_second nanoseconds }
{
    -999999999 <= nanoseconds && nanoseconds <= 999999999
}

// Kept: a choice. By `0 < seconds && nanoseconds < 0 || seconds < 0 && 0 < nanoseconds` a call at 32 enclaves with nanoseconds took 3,605 instructions, not 3,126, over the bar of 3,183.
fn opposite_signs(seconds: i64, nanoseconds: i32) -> bool
    ensures { result ≡ opposite_signs seconds nanoseconds }
{
    if 0 < seconds {
        nanoseconds < 0
    } else {
        seconds < 0 && 0 < nanoseconds
    }
}

// Whether the time is proper: nanoseconds within a second and not of the sign opposite to the seconds'.
#[tactic(auto, unfolding(crate::specs::Tags::proper_time))]
pub fn is_proper_time(seconds: i64, nanoseconds: i32) -> bool
    ensures { result ≡ proper_time seconds nanoseconds }
{
    within_second(nanoseconds) && !opposite_signs(seconds, nanoseconds)
}

// Whether the tag's time is proper.
pub fn is_proper(t: Tag) -> bool
    ensures { result ≡ is_proper t }
{
    is_proper_time(t.seconds, t.nanoseconds)
}

// Whether the tag is absent or proper.
pub fn proper_if_present(m: Option<Tag>) -> bool
    ensures { result ≡ proper_if_present m }
{
    m.is_none_or(is_proper)
}

// Whether there is a tag.
pub fn is_present(m: Option<Tag>) -> bool
    ensures { result ≡ is_present m }
{
    m.is_some()
}

// Whether m is below f, as an absent completed tag or frontier is of every tag.
pub fn is_below(m: Option<Tag>, f: Tag) -> bool
    ensures { result ≡ is_below m f }
{
    m.is_none_or(|a| !at_or_below(f, a))
}

// Whether m is present and at or below f.
pub fn is_at_or_below(m: Option<Tag>, f: Tag) -> bool
    ensures { result ≡ is_at_or_below m f }
{
    m.is_some_and(|a| at_or_below(a, f))
}

// Whether m is present and t at or below it.
pub fn is_within(t: Tag, m: Option<Tag>) -> bool
    ensures { result ≡ within t m }
{
    m.is_some_and(|g| at_or_below(t, g))
}

// Whether both are absent or both the same tag.
pub fn same_optional(m: Option<Tag>, n: Option<Tag>) -> bool
    ensures { result ≡ same_optional m n }
{
    m == n
}

// The lesser of those present.
pub fn lesser_present(m: Option<Tag>, n: Option<Tag>) -> Option<Tag>
    ensures { result ≡ lesser_present m n }
{
    match (m, n) {
        (Some(a), Some(b)) => Some(lesser(a, b)),
        _ => m.or(n),
    }
}

// The greater of those present.
// Kept: beside `lesser_present`, since one function over the choice would promise of its parameter what these two say in a word.
pub fn greater_present(m: Option<Tag>, n: Option<Tag>) -> Option<Tag>
    ensures { result ≡ greater_present m n }
{
    match (m, n) {
        (Some(a), Some(b)) => Some(greater(a, b)),
        _ => m.or(n),
    }
}

// The lesser of the two, absent where either is.
pub fn lesser_of_both(m: Option<Tag>, n: Option<Tag>) -> Option<Tag>
    ensures { result ≡ lesser_of_both m n }
{
    m.zip(n).map(|(a, b)| lesser(a, b))
}

// The lesser of t and the cap, or t where there is no cap.
pub fn capped_by(m: Option<Tag>, t: Tag) -> Tag
    ensures { result ≡ capped_by m t }
{
    m.map_or(t, |c| lesser(t, c))
}
