// The words of a listing's line (document 01, "Script and its listing"), put into lent room from a place on; the answer is the place after them.
// New here: the Rust prints nothing. A line is made of its first word and of fields, each with the space before it. Nothing is refused: the callers lend
// room for the longest of its kind, and every byte outside keeps its value.
#![tactic(auto)]

ghost use Rattle.std.specs.Prelude.{◌+◌, ◌≤◌, ◌∷◌, length};
ghost use Rattle.printing.specs.Runs.{Puts};
ghost use Rattle.fields.specs.Words.{line, phase_text};
ghost use Rattle.fields.specs.Fields.{word_of, room_of, room_for, words, field_text, fields_text, rest};

use records::CoordinationPhase;
use tags::Tag;

// A word of a line after the first, by what it says.
#[derive(Clone, Copy)]
pub enum Field {
    Number(u64),
    Time(Option<Tag>),
    Phase(CoordinationPhase),
}

fn put_phase(out: &mut [u8], at: usize, phase: CoordinationPhase) -> usize
    requires { at + 24 ≤ length out.old }
    ensures { Puts out.old at (phase_text phase) 24 result out.new }
{
    let word: &[u8] = match phase {
        CoordinationPhase::Active => b"active",
        CoordinationPhase::Probing => b"probing",
        CoordinationPhase::Parking => b"parking",
        CoordinationPhase::Rechecking => b"rechecking",
        CoordinationPhase::Parked => b"parked",
        CoordinationPhase::AwaitingIdleConfirmation => b"awaitingidleconfirmation",
        CoordinationPhase::Stopped => b"stopped",
    };
    printing::put_text(out, at, word)
}

fn put_word(out: &mut [u8], at: usize, field: Field) -> usize
    requires { at + room_of field ≤ length out.old }
    ensures { Puts out.old at (word_of field) (room_of field) result out.new }
{
    match field {
        Field::Number(n) => printing::put_decimal(out, at, n),
        Field::Time(tag) => printing::put_optional_tag(out, at, tag),
        Field::Phase(phase) => put_phase(out, at, phase),
    }
}

fn put_field(out: &mut [u8], at: usize, field: Field) -> usize
    requires { at + 1 + room_of field ≤ length out.old }
    ensures { Puts out.old at (field_text field) (1 + room_of field) result out.new }
{
    let word = printing::put_byte(out, at, b' ');
    put_word(out, word, field)
}

// Puts the fields, each with the space before it.
pub fn put_fields(out: &mut [u8], at: usize, fields: &[Field]) -> usize
    requires { at + room_for fields.now ≤ length out.old }
    ensures { Puts out.old at (fields_text fields.now) (room_for fields.now) result out.new }
{
    let mut place = at;
    for field in fields {
        place = put_field(out, place, *field);
    }
    place
}

// Puts the fields, each with the space before it, and the line's end.
pub fn put_rest(out: &mut [u8], at: usize, fields: &[Field]) -> usize
    requires { at + (room_for fields.now + 1) ≤ length out.old }
    ensures { Puts out.old at (rest (words fields.now)) (room_for fields.now + 1) result out.new }
{
    let end = put_fields(out, at, fields);
    printing::put_byte(out, end, b'\n')
}

// Puts the whole line: its first word, the fields and its end.
pub fn put_line(out: &mut [u8], at: usize, word: &[u8], fields: &[Field]) -> usize
    requires { at + (length word.now + (room_for fields.now + 1)) ≤ length out.old }
    ensures { Puts out.old at (line (word.now ∷ words fields.now)) (length word.now + (room_for fields.now + 1)) result out.new }
{
    let after = printing::put_text(out, at, word);
    put_rest(out, after, fields)
}
