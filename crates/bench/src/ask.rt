// Every query by its number, with its answer's numbers: refusal, presence, number, and the tags if there are any.
use crate::say::Shown;
use plain::TagNumbers;
use state::FederateCoordinationState;
use std::io;
use std::io::Write;

fn shown(numbers: TagNumbers) -> Shown {
    Shown(numbers.present.then_some(numbers.tag))
}

// Every query, with the candidate of this enclave.
pub fn ask<W: Write>(
    out: &mut W,
    case: &str,
    state: FederateCoordinationState,
    enclave: u32,
) -> io::Result<()> {
    write!(out, "{case}")?;
    for question in 1..12u8 {
        let asked = asking::ask(state, question, enclave);
        let refusal = asked.refusal;
        let present = u8::from(asked.present);
        let number = asked.number;
        let first = shown(asked.first);
        let second = shown(asked.second);
        write!(
            out,
            "; {question}: {refusal} {present} {number} {first} {second}"
        )?;
    }
    writeln!(out)
}
