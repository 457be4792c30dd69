// Action bytes (document 01, "Action record, 56 bytes, little-endian"): writes actions into lent room and reads them back.
// New here: the Rust hands out a `Vec` of actions. `write_action` answers no where the record does not fit; `read_action` refuses with 28 what is no
// action's record.
#![tactic(auto)]

ghost use Rattle.std.specs.Prelude.{◌≡◌, ◌+◌, ◌*◌, ◌≤◌, ◌<◌, ◌&&◌, length, take, get_or};
ghost use Rattle.octets.specs.Runs.{put_at, fits_at, written, same_bytes};
ghost use Rattle.actions.specs.Record.{fields_of, head_bytes, tag_bytes, optional_bytes, bytes_of, record_of, proper_action};
ghost use Rattle.actions.specs.Reading.{tag_at, publication_at, candidate_of, read_action};

use records::{CoordinationAction, FederateCompletion, FederatePublication, Refusal};
use tags::Tag;

// What a record's bytes are made of: what the action's kind does not use is zero, absent or no.
#[derive(Clone, Copy)]
pub struct Fields {
    // Kept: a number, since it is the record's kind byte, as document 01 lays the record out.
    pub kind: u8,
    pub enclave: u32,
    // The revision or the generation.
    pub number: u64,
    pub first: Option<Tag>,
    pub second: Option<Tag>,
    pub network_input: bool,
}

impl Fields {
    // What a kind that carries nothing has.
    pub const UNUSED: Fields = Fields {
        kind: 0,
        enclave: 0,
        number: 0,
        first: None,
        second: None,
        network_input: false,
    };
}

// What the action's record is made of.
pub fn fields_of(action: CoordinationAction) -> Fields
    ensures { result ≡ fields_of action }
{
    let carried = match action {
        CoordinationAction::Publish(p) => Fields {
            number: p.revision,
            first: p.next_event,
            second: p.grant_horizon,
            ..Fields::UNUSED
        },
        CoordinationAction::AdvanceHorizon { tag } => Fields {
            first: Some(tag),
            ..Fields::UNUSED
        },
        CoordinationAction::Grant { enclave, tag } => Fields {
            enclave,
            first: Some(tag),
            ..Fields::UNUSED
        },
        CoordinationAction::Complete(c) => Fields {
            first: Some(c.completed),
            network_input: c.network_input,
            ..Fields::UNUSED
        },
        CoordinationAction::CompletionProbe {
            enclave,
            generation,
        } => Fields {
            enclave,
            number: generation,
            ..Fields::UNUSED
        },
        CoordinationAction::Probe { revision }
        | CoordinationAction::Park { revision }
        | CoordinationAction::Recheck { revision } => Fields {
            number: revision,
            ..Fields::UNUSED
        },
        CoordinationAction::Resume { enclave, revision } => Fields {
            enclave,
            number: revision,
            ..Fields::UNUSED
        },
        CoordinationAction::Stop | CoordinationAction::Abort => Fields::UNUSED,
    };
    Fields {
        kind: u8::from(action),
        ..carried
    }
}

fn head_bytes(f: Fields) -> [u8; 16]
    ensures { result ≡ head_bytes f }
{
    let flags = u8::from(f.first.is_some())
        + 2 * u8::from(f.second.is_some())
        + 4 * u8::from(f.network_input);
    let mut head = [0; 16];
    head[0] = f.kind;
    head[1] = flags;
    head[4..8].copy_from_slice(&octets::le::<4>(u64::from(f.enclave)));
    head[8..].copy_from_slice(&octets::le::<8>(f.number));
    head
}

fn tag_bytes(t: Tag) -> [u8; 20]
    ensures { result ≡ tag_bytes t }
{
    let mut bytes = [0; 20];
    bytes[..8].copy_from_slice(&octets::le::<8>(t.seconds.cast_unsigned()));
    bytes[8..12].copy_from_slice(&octets::le::<4>(u64::from(t.nanoseconds.cast_unsigned())));
    bytes[12..].copy_from_slice(&octets::le::<8>(t.microstep));
    bytes
}

fn optional_bytes(m: Option<Tag>) -> [u8; 20]
    ensures { result ≡ optional_bytes m }
{
    m.map_or([0; 20], tag_bytes)
}

// Kept: three runs put into the room. All 56 bytes as one array, then put by `octets::copy_at`, took 47 instructions more a record.
fn put_fields(room: &mut [u8], at: usize, f: Fields)
    requires { at + 56 ≤ length room.old }
    ensures { room.new ≡ put_at room.old at (bytes_of f) }
{
    octets::put_run(room, at, &head_bytes(f));
    octets::put_run(room, at + 16, &optional_bytes(f.first));
    octets::put_run(room, at + 36, &optional_bytes(f.second));
}

fn write_fields(room: &mut [u8], place: usize, f: Fields) -> bool
    ensures value { result ≡ fits_at room.old (56 * place) (bytes_of f) }
    ensures bytes { room.new ≡ written room.old (56 * place) (bytes_of f) }
{
    if room.len() / 56 <= place {
        return false;
    }
    put_fields(room, 56 * place, f);
    true
}

// Puts the action's record into the room, right after `place` others, and answers yes, or, where it does not fit, answers no and
// leaves the room as it was.
pub fn write_action(room: &mut [u8], place: usize, action: CoordinationAction) -> bool
    ensures value { result ≡ fits_at room.old (56 * place) (record_of action) }
    ensures bytes { room.new ≡ written room.old (56 * place) (record_of action) }
{
    write_fields(room, place, fields_of(action))
}

fn tag_at(s: &[u8], at: usize) -> Tag
    requires { at ≤ 36 }
    ensures { result ≡ tag_at s.now at }
{
    let nanoseconds = octets::get::<4>(s, at + 8) as u32;
    Tag {
        seconds: octets::get::<8>(s, at).cast_signed(),
        nanoseconds: nanoseconds.cast_signed(),
        microstep: octets::get::<8>(s, at + 12),
    }
}

fn publication_at(s: &[u8]) -> FederatePublication
    requires { 1 < length s.now }
    ensures { result ≡ publication_at s.now }
{
    let flags = s[1];
    FederatePublication {
        revision: octets::get::<8>(s, 8),
        next_event: (flags % 2 == 1).then_some(tag_at(s, 16)),
        grant_horizon: (flags / 2 % 2 == 1).then_some(tag_at(s, 36)),
    }
}

// Kept: a match on the record's kind number, with a range for unknown kinds, as document 01 asks where action bytes are decoded.
fn candidate(s: &[u8]) -> Option<CoordinationAction>
    requires { 1 < length s.now }
    ensures { result ≡ candidate_of (get_or s.now 0 0) s.now }
{
    let kind = s[0];
    let enclave = octets::get::<4>(s, 4) as u32;
    let number = octets::get::<8>(s, 8);
    let tag = tag_at(s, 16);
    match kind {
        1 => Some(CoordinationAction::Publish(publication_at(s))),
        2 => Some(CoordinationAction::AdvanceHorizon { tag }),
        3 => Some(CoordinationAction::Grant { enclave, tag }),
        4 => Some(CoordinationAction::Complete(FederateCompletion {
            completed: tag,
            network_input: s[1] / 4 % 2 == 1,
        })),
        5 => Some(CoordinationAction::CompletionProbe {
            enclave,
            generation: number,
        }),
        6 => Some(CoordinationAction::Probe { revision: number }),
        7 => Some(CoordinationAction::Park { revision: number }),
        8 => Some(CoordinationAction::Recheck { revision: number }),
        9 => Some(CoordinationAction::Resume {
            enclave,
            revision: number,
        }),
        10 => Some(CoordinationAction::Stop),
        11 => Some(CoordinationAction::Abort),
        0 | 12..=255 => None,
    }
}

// Whether the first 56 bytes are the action's record and its tags are proper.
fn is_confirmed(action: CoordinationAction, s: &[u8]) -> bool
    requires { 56 ≤ length s.now }
    ensures { result ≡ (same_bytes (record_of action) (take 56 s.now) && proper_action action) }
{
    let mut record = [0; 56];
    write_action(&mut record, 0, action);
    let same = octets::same_bytes(&record, &s[..56]);
    let f = fields_of(action);
    same && tags::proper_if_present(f.first) && tags::proper_if_present(f.second)
}

// The action whose record the first 56 bytes are, or 28 where there are fewer or they are no record of an action with proper tags.
pub fn read_action(bytes: &[u8]) -> Result<CoordinationAction, Refusal>
    ensures { result ≡ read_action bytes.now }
{
    if bytes.len() < 56 {
        return Err(Refusal::NoActionRecord);
    }
    let action = candidate(bytes).ok_or(Refusal::NoActionRecord)?;
    if is_confirmed(action, bytes) {
        Ok(action)
    } else {
        Err(Refusal::NoActionRecord)
    }
}
