// Event lines (document 01, "Script and its listing"; "message dispatch, choosing by kind number"): the event that a line tells.
// New here: the Rust reads no script. A line that is no event is told as none; nothing else is refused.
#![tactic(auto)]

ghost use Rattle.std.specs.Prelude.{◌≡◌, [], ◌∷◌, ◌≤◌, None, Some, MatchOption};
ghost use Rattle.events.specs.Events.{event_number, listed, input_of, without_fields, by_fields, event_of};
ghost use Rattle.events.specs.Told.{told_event, event_for, enclaves_of};
ghost use Rattle.eventlines.specs.Named.{fields_of, named_of};

use events::Event;

// The fields of a line from the space at a place on.
#[derive(Clone, Copy)]
struct Fields<'a> {
    line: &'a [u8],
    at: usize,
}

// What the fields of an `input` line name: how many enclaves, and these, with 0 after them.
// Kept: an array with a count beside it, since no heap is used.
#[derive(Clone, Copy)]
struct Named {
    count: usize,
    enclaves: [u32; 32],
}

impl<'a> Fields<'a> {
    // The next field, which is passed; none where the line has ended.
    fn next(&mut self) -> Option<&'a [u8]>
        ensures { MatchOption result (fields_of self.old ≡ []) (λ f. fields_of self.old ≡ f.now ∷ fields_of self.new) }
    {
        let line = self.line;
        if line.len() <= self.at {
            return None;
        }
        let from = self.at + 1;
        let end = from + numerals::find(&line[from..], 32);
        self.at = end;
        Some(&line[from..end])
    }
}

// The number of an event's word; 0 where it is none's.
// Kept: a number, and no enum of the words, which would name each of the seventeen events once more beside `Event`.
fn event_number(w: &[u8]) -> u8
    ensures { result ≡ event_number w.now }
{
    let line: &[u8] =
        b" active publish complete observed stopped failed acquire sent observe idle stop horizon begin late done input progress";
    let mut names = Fields { line, at: 0 };
    let mut number: u8 = 1;
    while let Some(name) = names.next() {
        if octets::same_bytes(w, name) {
            return number;
        }
        number += 1;
    }
    0
}

// `stop`, `progress`.
#[tactic(auto, unfolding(events::specs::Events::without_fields))]
fn without_fields(kind: u8) -> Option<Event>
    ensures { result ≡ event_for (without_fields kind) }
{
    match kind {
        11 => Some(Event::Stop),
        17 => Some(Event::Progress),
        _ => None,
    }
}

// The event of a word's number and its fields; none has a fourth.
fn with_fields(kind: u8, mut fields: Fields) -> Option<Event>
    ensures { result ≡ event_for (by_fields kind (fields_of fields.entry)) }
{
    let Some(a) = fields.next() else {
        return without_fields(kind);
    };
    let Some(b) = fields.next() else {
        return events::with_one_field(kind, a);
    };
    let Some(c) = fields.next() else {
        return events::with_two_fields(kind, a, b);
    };
    match fields.next() {
        None => events::with_three_fields(kind, a, b, c),
        Some(_) => None,
    }
}

// As many enclaves as an `input` line says, from its fields after that.
fn listed_enclaves(mut fields: Fields, n: usize) -> Option<Named>
    requires { n ≤ 32 }
    ensures { result ≡ named_of (listed (Some n) (fields_of fields.entry)) }
{
    let mut enclaves: [u32; 32] = [0; 32];
    for k in 0..n {
        let field = fields.next()?;
        let enclave = numerals::number(field, 4294967295)?;
        enclaves[k] = enclave as u32;
    }
    match fields.next() {
        None => Some(Named { count: n, enclaves }),
        Some(_) => None,
    }
}

fn input_fields(mut fields: Fields) -> Option<Named>
    ensures { result ≡ named_of (input_of (fields_of fields.entry)) }
{
    let field = fields.next()?;
    let n = numerals::number(field, 32)?;
    listed_enclaves(fields, n as usize)
}

// The event that a line, without its LF, tells.
pub fn read_event(line: &[u8]) -> Option<Event>
    ensures { told_event result (enclaves_of line.now) ≡ event_of line.now }
{
    let at = numerals::find(line, 32);
    let kind = event_number(&line[..at]);
    if kind == 16 {
        let named = input_fields(Fields { line, at })?;
        return Some(Event::Input(named.count));
    }
    with_fields(kind, Fields { line, at })
}

// The enclaves that the line names if it is an `input`, and 0 in every place after them.
pub fn enclaves(line: &[u8]) -> [u32; 32]
    ensures { result ≡ enclaves_of line.now }
{
    let at = numerals::find(line, 32);
    let kind = event_number(&line[..at]);
    if kind != 16 {
        return [0; 32];
    }
    match input_fields(Fields { line, at }) {
        Some(named) => named.enclaves,
        None => [0; 32],
    }
}
