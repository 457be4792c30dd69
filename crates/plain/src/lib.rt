// What a host gives and gets, as plain numbers in C's layout: calls, replies and actions read back. New here: the Rust hands
// out enums and a `Vec`. A kind of call or an observation that has no meaning tells no call; every other function is total and refuses nothing.
#![tactic(auto)]

ghost use Rattle.std.specs.Prelude.{◌≡◌};
ghost use Rattle.events.specs.Told.{told_event};
ghost use Rattle.plain.specs.Tags.{tag_if, tag_numbers};
ghost use Rattle.plain.specs.Given.{call_of, observe_by};
ghost use Rattle.plain.specs.Replied.{answer_number, numbers_of};
ghost use Rattle.plain.specs.Read.{read_numbers};

use actions::Fields;
use calls::Reply;
use events::Event;
use records::{CoordinationAction, Observation, Refusal};
use tags::Tag;

// A tag that may be absent. An absent one's numbers are not looked at where a host gives them, and are 0 where it gets them.
// Kept: here and below, flags beside values and numbers for kinds, refusals and answers, which is C's layout.
#[repr(C)]
#[derive(Clone, Copy)]
pub struct TagNumbers {
    pub present: bool,
    pub tag: Tag,
}

// A call. What its kind does not use is not looked at; a kind that needs a tag takes the first one's numbers, present or not.
#[repr(C)]
#[derive(Clone, Copy)]
pub struct CallNumbers {
    // The script's events in document 01's order, from 1: `active` to `progress`.
    pub kind: u8,
    // 0 probed, 1 parked, 2 rechecked.
    pub observation: u8,
    // Whether a completed tag covers network input.
    pub network_input: bool,
    // Whether a failure names its enclave.
    pub named: bool,
    pub enclave: u32,
    // The revision or the generation.
    pub number: u64,
    pub first: TagNumbers,
    // The horizon of a publication that was sent.
    pub second: TagNumbers,
}

// A call's reply.
#[repr(C)]
#[derive(Clone, Copy)]
pub struct ReplyNumbers {
    pub refusal: u8,
    // 0 no, 1 yes, 2 for a call that answers nothing.
    pub answer: u8,
    // How many records were written, from byte 0 of the room.
    pub actions: usize,
}

// An action read from its record, or 28 and nothing else. What its kind does not use is 0, absent or no.
#[repr(C)]
#[derive(Clone, Copy)]
pub struct ActionNumbers {
    pub refusal: u8,
    // The record's kind.
    pub kind: u8,
    pub network_input: bool,
    pub enclave: u32,
    // The revision or the generation.
    pub number: u64,
    pub first: TagNumbers,
    // The horizon of a publication.
    pub second: TagNumbers,
}

impl From<TagNumbers> for Option<Tag> {
    ghost from_gives = { λ n m. m ≡ tag_if n };

    fn from(given: TagNumbers) -> Option<Tag> {
        given.present.then_some(given.tag)
    }
}

impl From<Option<Tag>> for TagNumbers {
    ghost from_gives = { λ m n. n ≡ tag_numbers m };

    fn from(tag: Option<Tag>) -> TagNumbers {
        TagNumbers {
            present: tag.is_some(),
            tag: tag.unwrap_or(Tag::ZERO),
        }
    }
}

fn observe_event(enclave: u32, revision: u64, observation: u8, listed: &[u32]) -> Option<Event>
    ensures { told_event result listed.now ≡ observe_by enclave revision observation }
{
    let observed = Observation::try_from(observation).ok()?;
    Some(Event::Observe(enclave, revision, observed))
}

// The event that tells the call, beside the enclaves that an `input` names.
// Kept: a match on the kind number, with a range for unknown kinds, as document 01 asks where events are decoded.
#[tactic(auto, unfolding(crate::specs::Given::call_of))]
pub fn event_of(call: CallNumbers, listed: &[u32]) -> Option<Event>
    ensures { told_event result listed.now ≡ call_of call listed.now }
{
    let enclave = call.enclave;
    let number = call.number;
    let tag = call.first.tag;
    let next_event = Option::from(call.first);
    match call.kind {
        1 => Some(Event::Active(enclave)),
        2 => Some(Event::Publish(enclave, next_event)),
        3 => Some(Event::Complete(enclave, tag, call.network_input)),
        4 => Some(Event::Observed(enclave, number)),
        5 => Some(Event::Stopped(enclave)),
        6 => Some(Event::Failed(call.named.then_some(enclave))),
        7 => Some(Event::Acquire(number, tag)),
        8 => Some(Event::Sent(number, next_event, Option::from(call.second))),
        9 => observe_event(enclave, number, call.observation, listed),
        10 => Some(Event::Idle(number)),
        11 => Some(Event::Stop),
        12 => Some(Event::Horizon(next_event)),
        13 => Some(Event::Begin(enclave, tag)),
        14 => Some(Event::Late(enclave, tag)),
        15 => Some(Event::Done(enclave, tag)),
        16 => Some(Event::Input(listed.len())),
        17 => Some(Event::Progress),
        0 | 18..=255 => None,
    }
}

// Kept: a function, since none of its types is of this crate, so that no `From` can stand here.
fn answer_number(answer: Option<bool>) -> u8
    ensures { result ≡ answer_number answer }
{
    match answer {
        Some(false) => 0,
        Some(true) => 1,
        None => 2,
    }
}

// The numbers of a reply.
pub fn reply_numbers(reply: Reply) -> ReplyNumbers
    ensures { result ≡ numbers_of reply }
{
    ReplyNumbers {
        refusal: records::refusal_number(reply.refusal),
        answer: answer_number(reply.answer),
        actions: reply.actions,
    }
}

// The numbers of what reading a record found.
pub fn read_numbers(found: Result<CoordinationAction, Refusal>) -> ActionNumbers
    ensures { result ≡ read_numbers found }
{
    let (refusal, fields) = match found {
        Ok(action) => (0, actions::fields_of(action)),
        Err(refusal) => (u8::from(refusal), Fields::UNUSED),
    };
    ActionNumbers {
        refusal,
        kind: fields.kind,
        network_input: fields.network_input,
        enclave: fields.enclave,
        number: fields.number,
        first: TagNumbers::from(fields.first),
        second: TagNumbers::from(fields.second),
    }
}
