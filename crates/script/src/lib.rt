// Scripts (document 01, "Script and its listing"): the reading of a script's three sections, line by line from its reader.
// New here: the Rust has no scripts. Over 65,536 bytes are refused 12, and 11 names the place of the first bad line. The events are
// read for their form alone: a run reads them again, line by line, from `events_at` on.
#![tactic(auto)]

ghost use Rattle.std.specs.Prelude.{◌≡◌, List, ℕ, ◌-◌, ◌^◌, ◌≤◌, length, set, replicate};
ghost use Rattle.numerals.specs.Numerals.{number_of};
ghost use Rattle.events.specs.Events.{word_of, event_of};
ghost use Rattle.events.specs.Told.{is_given};
ghost use Rattle.script.specs.Lines.{item, items};
ghost use Rattle.script.specs.Script.{header_of, is_three, settings_of, policy_of, counted_events, settings_and_events_of};
ghost use Rattle.script.specs.Read.{bad_line, answered, read_script_of};
ghost use Rattle.script.specs.Told.{read_of, passed_of, gathered, Kept};

use records::{LifecyclePolicy, Refusal};

// Why a script is refused and, for 11, at which place.
#[derive(Clone, Copy)]
pub struct BadScript {
    pub refusal: Refusal,
    pub place: usize,
}

// The first 33 of the participants, with 0 after them, and how many these are: at most 32 open, and a thirty-third says that there are too many.
// Kept: an array with a count beside it, since no heap is used.
#[derive(Clone, Copy)]
pub struct Participants {
    pub indices: [u32; 33],
    pub count: usize,
}

// What a script says, its events by their place and number.
#[derive(Clone, Copy)]
pub struct ReadScript {
    pub participants: Participants,
    pub policy: LifecyclePolicy,
    pub revision: u64,
    pub generation: u64,
    pub events_at: usize,
    pub events: usize,
}

fn bad_line(place: usize) -> BadScript
    ensures { result ≡ bad_line place }
{
    BadScript {
        refusal: Refusal::ScriptOutOfForm,
        place,
    }
}

// ---- items

// The count that a line tells after this word, at most so many.
fn header(line: &[u8], word: &[u8], most: u64) -> Option<u64>
    ensures { result ≡ header_of word.now most line.now }
{
    let first = numerals::find(line, 32);
    if line.len() <= first {
        return None;
    }
    let rest = &line[first + 1..];
    let second = numerals::find(rest, 32);
    if second < rest.len() {
        return None;
    }
    if octets::same_bytes(&line[..first], word) {
        return numerals::number(rest, most);
    }
    None
}

// The count of the settings, which is three.
fn only_three(read: Option<u64>) -> Option<u64>
    ensures { result ≡ is_three read }
{
    read.filter(|n| *n == 3)
}

fn policy(line: &[u8]) -> Option<LifecyclePolicy>
    ensures { result ≡ policy_of line.now }
{
    if octets::same_bytes(line, b"keep") {
        return Some(LifecyclePolicy::KeepAlive);
    }
    if octets::same_bytes(line, b"terminate") {
        return Some(LifecyclePolicy::TerminateWhenIdle);
    }
    if octets::same_bytes(line, b"coordinated") {
        return Some(LifecyclePolicy::CoordinatedTermination);
    }
    None
}

// The line at a place, whose text was read as this, with the place after it.
// Inlined, as is `number_at`: called, the two made a line of a long list of participants cost a third more.
#[inline]
fn item_at<T: Copy>(script: &[u8], at: usize, read: Option<T>) -> Result<(T, usize), BadScript>
    ensures { result ≡ read_of (item (λ line. read) script.now at) }
{
    if !reader::is_ended(script, at) {
        return Err(bad_line(at));
    }
    let Some(x) = read else {
        return Err(bad_line(at));
    };
    let next = reader::place_after(script, at);
    Ok((x, next))
}

fn header_at(script: &[u8], at: usize, word: &[u8], most: u64) -> Result<(u64, usize), BadScript>
    ensures { result ≡ read_of (item (header_of word.now most) script.now at) }
{
    let line = reader::line_from(script, at);
    item_at(script, at, header(line, word, most))
}

fn settings_at(script: &[u8], at: usize) -> Result<(u64, usize), BadScript>
    ensures { result ≡ read_of (item settings_of script.now at) }
{
    let line = reader::line_from(script, at);
    item_at(
        script,
        at,
        only_three(header(line, b"settings", 4294967295)),
    )
}

#[inline]
fn number_at(script: &[u8], at: usize, most: u64) -> Result<(u64, usize), BadScript>
    ensures { result ≡ read_of (item (number_of most) script.now at) }
{
    let line = reader::line_from(script, at);
    item_at(script, at, numerals::number(line, most))
}

fn policy_at(script: &[u8], at: usize) -> Result<(LifecyclePolicy, usize), BadScript>
    ensures { result ≡ read_of (item policy_of script.now at) }
{
    let line = reader::line_from(script, at);
    item_at(script, at, policy(line))
}

// Whether the line is an event.
pub fn is_event(line: &[u8]) -> bool
    ensures { result ≡ is_given (event_of line.now) }
{
    eventlines::read_event(line).is_some()
}

// The place after the event at a place.
fn pass_event(script: &[u8], at: usize) -> Result<usize, BadScript>
    ensures { result ≡ passed_of (item event_of script.now at) }
{
    if !reader::is_ended(script, at) {
        return Err(bad_line(at));
    }
    let line = reader::line_from(script, at);
    let next = reader::place_after(script, at);
    is_event(line).then_some(next).ok_or(bad_line(at))
}

// ---- sections

// Puts the index at its place, where there is one.
fn put_index(indices: &mut [u32; 33], place: u64, index: u64)
    requires { (index ≤ 2 ^ 32 - 1) × (length indices.old ≡ 33) }
    ensures { indices.new ≡ set indices.old place index }
{
    if place < 33 {
        indices[place as usize] = index as u32;
    }
}

// So many participants' lines, with the place after them.
fn read_participants(
    script: &[u8],
    from: usize,
    number: u64,
) -> Result<(Participants, usize), BadScript>
    ensures { result ≡ gathered (replicate 33 0) 0 (items number word_of script.now from) }
{
    let mut indices: [u32; 33] = [0; 33];
    let mut at = from;
    for k in 0..number {
        let (index, next) = number_at(script, at, 4294967295)?;
        put_index(&mut indices, k, index);
        at = next;
    }
    let count = number.min(33) as usize;
    Ok((Participants { indices, count }, at))
}

// The place after so many events.
fn pass_events(script: &[u8], from: usize, number: u64) -> Result<usize, BadScript>
    ensures { result ≡ passed_of (items number event_of script.now from) }
{
    let mut at = from;
    // k has its name for the invariant, which says by it how many are left.
    for k in 0..number {
        at = pass_event(script, at)?;
    }
    Ok(at)
}

// ---- the script

// How many events there are, up to the script's end, and the place of the first.
fn read_events(bytes: &[u8], at: usize) -> Result<(u64, usize), BadScript>
    ensures { result ≡ read_of (counted_events bytes.now at) }
{
    let (events, first) = header_at(bytes, at, b"events", 4096)?;
    let last = pass_events(bytes, first, events)?;
    if last != bytes.len() {
        return Err(bad_line(last));
    }
    Ok((events, first))
}

fn read_settings(
    bytes: &[u8],
    participants: Participants,
    at: usize,
) -> Result<ReadScript, BadScript>
    ensures { (ps : List ℕ) → Kept ps participants → result ≡ answered (settings_and_events_of bytes.now ps at) }
{
    let (_, second) = settings_at(bytes, at)?;
    let (policy, third) = policy_at(bytes, second)?;
    let (revision, fourth) = number_at(bytes, third, u64::MAX)?;
    let (generation, fifth) = number_at(bytes, fourth, u64::MAX)?;
    let (events, events_at) = read_events(bytes, fifth)?;
    Ok(ReadScript {
        participants,
        policy,
        revision,
        generation,
        events_at,
        events: events as usize,
    })
}

// What a script says, or its refusal: 12, then 11 with the place of the first bad line.
pub fn read_script(bytes: &[u8]) -> Result<ReadScript, BadScript>
    ensures { result ≡ read_script_of bytes.now }
{
    if 65536 < bytes.len() {
        return Err(BadScript {
            refusal: Refusal::ScriptTooLong,
            place: 0,
        });
    }
    let (number, first) = header_at(bytes, 0, b"participants", 4294967295)?;
    let (participants, next) = read_participants(bytes, first, number)?;
    read_settings(bytes, participants, next)
}
