// Delay (document 01, "Tags", last three sentences; time.rs, `Tag::delay`): a tag later or earlier by a duration, exactly.
// Refuses with 7 what is not proper and with 10 what leaves the range, and then returns its tag.
#![tactic(auto)]

ghost use Rattle.std.specs.Prelude.{◌≡◌, ℤ, ◌+ℤ◌, ◌≤ℤ◌, pos, negsuc, Some, true};
ghost use Rattle.tags.specs.Tags.{within_second, proper_time, is_proper};
ghost use Rattle.records.specs.declared.Refusal.TheVariants.{DelayOutOfRange};
ghost use Rattle.delay.specs.Delay.{total_nanoseconds, offset_of, proper_pair, is_zero, answer, stepped_of, moved_of, delay_of};
ghost use Rattle.delay.specs.Sum.{Adds};

use records::Refusal;
use tags::Tag;

// A signed span of logical time.
#[derive(Clone, Copy, PartialEq, Eq)]
pub struct Duration {
    // Whole seconds.
    pub seconds: i64,
    // Nanoseconds past them, of the same sign in a proper duration.
    pub nanoseconds: i32,
}

// The answer of `delay`: the delayed tag, or the refusal and the tag as it was.
// Kept: a tag beside the refusal, since document 01 has a refused delay return its tag (`delay_of`).
#[derive(Clone, Copy, PartialEq, Eq)]
pub struct Delayed {
    pub refusal: Option<Refusal>,
    pub tag: Tag,
}

impl Duration {
    fn is_zero(self) -> bool
        ensures { result ≡ is_zero self }
    {
        self.seconds == 0 && self.nanoseconds == 0
    }
}

fn offset_of(tag: Tag) -> Duration
    ensures { result ≡ offset_of tag }
{
    Duration {
        seconds: tag.seconds,
        nanoseconds: tag.nanoseconds,
    }
}

// The proper pair of a total, from seconds and less than a second beside them: a second goes over where the signs differ.
fn repair_signs(sum: Duration) -> Duration
    requires { within_second sum.nanoseconds ≡ true }
    ensures { (z : ℤ) → total_nanoseconds sum ≡ z → result ≡ proper_pair z }
{
    if 0 < sum.seconds && sum.nanoseconds < 0 {
        Duration {
            seconds: sum.seconds - 1,
            nanoseconds: sum.nanoseconds + 1000000000,
        }
    } else if sum.seconds < 0 && 0 < sum.nanoseconds {
        Duration {
            seconds: sum.seconds + 1,
            nanoseconds: sum.nanoseconds - 1000000000,
        }
    } else {
        sum
    }
}

// The proper pair of a total, from seconds and less than two beside them: one is carried. None where the seconds leave the range.
fn carry(sum: Duration) -> Option<Duration>
    requires { (negsuc 1999999997 ≤ℤ sum.nanoseconds) × (sum.nanoseconds ≤ℤ pos 1999999998) }
    ensures { (z : ℤ) → total_nanoseconds sum ≡ z → Adds z result }
{
    let carried = i64::from(sum.nanoseconds / 1000000000);
    let Some(seconds) = sum.seconds.checked_add(carried) else {
        return None;
    };
    let nanoseconds = sum.nanoseconds % 1000000000;
    Some(repair_signs(Duration {
        seconds,
        nanoseconds,
    }))
}

// Both proper, added with carry and sign repair; none where the seconds leave the range.
fn add_exactly(start: Duration, offset: Duration) -> Option<Duration>
    requires start_is_proper { proper_time start.seconds start.nanoseconds ≡ true }
    requires offset_is_proper { proper_time offset.seconds offset.nanoseconds ≡ true }
    ensures { Adds (total_nanoseconds start +ℤ total_nanoseconds offset) result }
{
    let Some(seconds) = start.seconds.checked_add(offset.seconds) else {
        return None;
    };
    let nanoseconds = start.nanoseconds + offset.nanoseconds;
    carry(Duration {
        seconds,
        nanoseconds,
    })
}

fn refused(tag: Tag, refusal: Refusal) -> Delayed
    ensures { result ≡ answer (Some refusal) tag }
{
    Delayed {
        refusal: Some(refusal),
        tag,
    }
}

// A proper tag moved by a proper offset.
#[tactic(auto, unfolding(crate::specs::Delay::moved_of))]
fn move_by(tag: Tag, offset: Duration) -> Delayed
    requires tag_is_proper { is_proper tag ≡ true }
    requires offset_is_proper { proper_time offset.seconds offset.nanoseconds ≡ true }
    ensures { result ≡ moved_of tag (total_nanoseconds (offset_of tag) +ℤ total_nanoseconds offset) }
{
    let Some(moved) = add_exactly(offset_of(tag), offset) else {
        return refused(tag, Refusal::DelayOutOfRange);
    };
    Delayed {
        refusal: None,
        tag: Tag {
            seconds: moved.seconds,
            nanoseconds: moved.nanoseconds,
            microstep: 0,
        },
    }
}

#[tactic(auto, unfolding(crate::specs::Delay::stepped_of))]
fn next_microstep(tag: Tag) -> Delayed
    ensures { result ≡ stepped_of tag }
{
    match tag.microstep.checked_add(1) {
        None => refused(tag, Refusal::DelayOutOfRange),
        Some(microstep) => Delayed {
            refusal: None,
            tag: Tag { microstep, ..tag },
        },
    }
}

// The tag delayed by the offset; refused with 7 where either is not proper, with 10 where the result leaves the range.
#[tactic(auto, unfolding(crate::specs::Delay::delay_of))]
pub fn delay(tag: Tag, offset: Duration) -> Delayed
    ensures { result ≡ delay_of tag offset }
{
    if !tags::is_proper(tag) || !tags::is_proper_time(offset.seconds, offset.nanoseconds) {
        return refused(tag, Refusal::ImproperTag);
    }
    if offset.is_zero() {
        return next_microstep(tag);
    }
    move_by(tag, offset)
}
