// A row of the scenario: the letter of a call, an enclave, a tag and a number, a byte each. Enclave `-` is none, tag `-` is absent and `!` improper; a
// digit of a tag is its seconds.
use records::{
    EnclaveIndex, FederateAcquisition, FederatePublication, Observation, SchedulerMessage,
};
use requests::{Change, Request};
use tags::Tag;

// What a row asks for.
#[derive(Clone, Copy)]
pub enum Asked {
    Change(Change),
    Request(Request),
    Message(SchedulerMessage),
}

// A row's call, and its enclave, which an input notice names alone.
#[derive(Clone, Copy)]
pub struct Row {
    pub asked: Asked,
    pub enclave: Option<EnclaveIndex>,
}

// The bytes after the letter, read; where a call names an enclave or a tag that is absent, it names 0 or ZERO.
#[derive(Clone, Copy)]
struct Given {
    enclave: Option<EnclaveIndex>,
    tag: Option<Tag>,
    number: u64,
}

fn digit(byte: u8) -> u8 {
    byte.saturating_sub(b'0')
}

fn tag_of(byte: u8) -> Option<Tag> {
    let (seconds, nanoseconds) = match byte {
        b'-' => return None,
        b'!' => (1, -1),
        _ => (i64::from(digit(byte)), 0),
    };
    Some(Tag {
        seconds,
        nanoseconds,
        microstep: 0,
    })
}

// `a` active, `p` publish, `c` complete, `o` observed, `s` stopped; any other failed.
fn message_of(letter: u8, given: Given) -> SchedulerMessage {
    let enclave = given.enclave.unwrap_or(0);
    match letter {
        b'a' => SchedulerMessage::Active { enclave },
        b'p' => SchedulerMessage::Publish {
            enclave,
            next_event: given.tag,
        },
        b'c' => SchedulerMessage::CompleteTag {
            enclave,
            tag: given.tag.unwrap_or(Tag::ZERO),
            network_input: true,
        },
        b'o' => SchedulerMessage::CompletionObserved {
            enclave,
            generation: given.number,
        },
        b's' => SchedulerMessage::ParticipantStopped { enclave },
        _ => SchedulerMessage::Failed {
            enclave: given.enclave,
        },
    }
}

// `A` acquire, `S` sent, `P` probed, `K` parked, `R` rechecked, `I` idle, `G` progress; any other stop.
fn request_of(letter: u8, given: Given) -> Request {
    let enclave = given.enclave.unwrap_or(0);
    let revision = given.number;
    match letter {
        b'A' => Request::Acquisition(FederateAcquisition {
            revision,
            granted: given.tag.unwrap_or(Tag::ZERO),
        }),
        b'S' => Request::PublicationSent(FederatePublication {
            revision,
            next_event: given.tag,
            grant_horizon: None,
        }),
        b'P' => Request::Observation(enclave, revision, Observation::Probed),
        b'K' => Request::Observation(enclave, revision, Observation::Parked),
        b'R' => Request::Observation(enclave, revision, Observation::Rechecked),
        b'I' => Request::IdleConfirmation(revision),
        b'G' => Request::InputProgress,
        _ => Request::Stop,
    }
}

// `1` input horizon, `2` begin; any other an input notice.
fn change_of(letter: u8, given: Given) -> Change {
    match letter {
        b'1' => Change::InputHorizon(given.tag),
        b'2' => Change::BeginTag(given.enclave.unwrap_or(0), given.tag.unwrap_or(Tag::ZERO)),
        _ => Change::InputPublishing,
    }
}

// Digits are changes of the gate, capitals the other calls that take room, small letters the scheduler's messages.
pub fn row_of(letter: u8, enclave: u8, tag: u8, number: u8) -> Row {
    let enclave = if enclave == b'-' {
        None
    } else {
        Some(u32::from(digit(enclave)))
    };
    let given = Given {
        enclave,
        tag: tag_of(tag),
        number: u64::from(digit(number)),
    };
    let asked = if letter < b'A' {
        Asked::Change(change_of(letter, given))
    } else if letter < b'a' {
        Asked::Request(request_of(letter, given))
    } else {
        Asked::Message(message_of(letter, given))
    };
    Row { asked, enclave }
}
