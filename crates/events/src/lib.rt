// Events (document 01, "Script and its listing"): the call that an event tells, and an event made of the fields of its line.
// New here: the Rust reads no script. A field that is not of its form makes no event; nothing else is refused.
#![tactic(auto)]

ghost use Rattle.std.specs.Prelude.{◌≡◌};
ghost use Rattle.events.specs.Events.{word_of, wide_of, enclave_of, mark_of, observation_of, with_one_field, with_two_fields, with_three_fields};
ghost use Rattle.events.specs.Told.{event_for};

use records::Observation;
use tags::Tag;

// The call that a line tells, by its word in document 01. `Input` has the count of the enclaves that stand beside it.
#[derive(Clone, Copy)]
pub enum Event {
    Active(u32),
    Publish(u32, Option<Tag>),
    Complete(u32, Tag, bool),
    Observed(u32, u64),
    Stopped(u32),
    Failed(Option<u32>),
    Acquire(u64, Tag),
    Sent(u64, Option<Tag>, Option<Tag>),
    Observe(u32, u64, Observation),
    Idle(u64),
    Stop,
    Horizon(Option<Tag>),
    Begin(u32, Tag),
    Late(u32, Tag),
    Done(u32, Tag),
    Input(usize),
    Progress,
}

// E, and a count.
fn word(t: &[u8]) -> Option<u32>
    ensures { result ≡ word_of t.now }
{
    Some(numerals::number(t, 4294967295)? as u32)
}

// R, G.
fn wide(t: &[u8]) -> Option<u64>
    ensures { result ≡ wide_of t.now }
{
    numerals::number(t, u64::MAX)
}

// `E|-`.
fn enclave(t: &[u8]) -> Option<Option<u32>>
    ensures { result ≡ enclave_of t.now }
{
    if octets::same_bytes(t, b"-") {
        return Some(None);
    }
    Some(Some(word(t)?))
}

// `0|1`.
fn mark(t: &[u8]) -> Option<bool>
    ensures { result ≡ mark_of t.now }
{
    if octets::same_bytes(t, b"0") {
        return Some(false);
    }
    if octets::same_bytes(t, b"1") {
        return Some(true);
    }
    None
}

// `probed|parked|rechecked`.
fn observation(t: &[u8]) -> Option<Observation>
    ensures { result ≡ observation_of t.now }
{
    if octets::same_bytes(t, b"probed") {
        return Some(Observation::Probed);
    }
    if octets::same_bytes(t, b"parked") {
        return Some(Observation::Parked);
    }
    if octets::same_bytes(t, b"rechecked") {
        return Some(Observation::Rechecked);
    }
    None
}

// Kept: an event's word is a number here, as document 01 has it ("choosing by kind number .. when events are decoded").

// `active E`, `stopped E`, `failed E|-`, `idle R`, `horizon T|-`.
#[tactic(auto, unfolding(crate::specs::Events::with_one_field))]
pub fn with_one_field(kind: u8, a: &[u8]) -> Option<Event>
    ensures { result ≡ event_for (with_one_field kind a.now) }
{
    match kind {
        1 => Some(Event::Active(word(a)?)),
        5 => Some(Event::Stopped(word(a)?)),
        6 => Some(Event::Failed(enclave(a)?)),
        10 => Some(Event::Idle(wide(a)?)),
        12 => Some(Event::Horizon(numerals::optional_tag(a)?)),
        _ => None,
    }
}

// `publish E T|-`, `observed E G`, `acquire R T`, `begin E T`, `late E T`, `done E T`.
#[tactic(auto, unfolding(crate::specs::Events::with_two_fields))]
pub fn with_two_fields(kind: u8, a: &[u8], b: &[u8]) -> Option<Event>
    ensures { result ≡ event_for (with_two_fields kind a.now b.now) }
{
    match kind {
        2 => Some(Event::Publish(word(a)?, numerals::optional_tag(b)?)),
        4 => Some(Event::Observed(word(a)?, wide(b)?)),
        7 => Some(Event::Acquire(wide(a)?, numerals::tag(b)?)),
        13 => Some(Event::Begin(word(a)?, numerals::tag(b)?)),
        14 => Some(Event::Late(word(a)?, numerals::tag(b)?)),
        15 => Some(Event::Done(word(a)?, numerals::tag(b)?)),
        _ => None,
    }
}

// `complete E T 0|1`, `sent R T|- T|-`, `observe E R probed|parked|rechecked`.
#[tactic(auto, unfolding(crate::specs::Events::with_three_fields))]
pub fn with_three_fields(kind: u8, a: &[u8], b: &[u8], c: &[u8]) -> Option<Event>
    ensures { result ≡ event_for (with_three_fields kind a.now b.now c.now) }
{
    match kind {
        3 => Some(Event::Complete(word(a)?, numerals::tag(b)?, mark(c)?)),
        8 => Some(Event::Sent(
            wide(a)?,
            numerals::optional_tag(b)?,
            numerals::optional_tag(c)?,
        )),
        9 => Some(Event::Observe(word(a)?, wide(b)?, observation(c)?)),
        _ => None,
    }
}
