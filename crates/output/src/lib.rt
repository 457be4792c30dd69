// A script's listing to a writer, for the programs that read scripts (document 01, "Script and its listing"). All that is written is made by crates
// `run` and `session`; here is the loop, whose contracts say nothing of what is read or written.
#![tactic(auto)]

ghost use Rattle.std.specs.Prelude.{◌≡◌, length};

use std::io;
use std::io::{Read, Write};

// Writes the first n bytes of the listing.
fn write_listing<W: Write>(out: &mut W, listing: &[u8], n: usize) -> io::Result<()> {
    if n <= listing.len() {
        return out.write_all(&listing[..n]);
    }
    Ok(())
}

// Runs the script, at most 4,096 of its events, and writes its listing as it goes, as much at a time as the room holds.
pub fn list_script<W: Write>(out: &mut W, script: &[u8], room: &mut [u8]) -> io::Result<()>
    ensures { length room.new ≡ length room.old }
{
    let opened = session::open(script);
    let refusal = opened.refusal;
    if refusal.is_some() {
        let refused = session::list_refusal(refusal, opened.place, room);
        return write_listing(out, room, refused);
    }
    let mut running = opened.start;
    let mut budget: usize = 4096;
    // Kept: a while, since a run tells how much of the budget is left.
    while 0 < budget {
        let ran = run::run(script, running, budget, room);
        write_listing(out, room, ran.written)?;
        running = ran.rest;
        budget = budget::budget_left(budget, ran.taken);
    }
    let state = running.state;
    let last = session::list_end(state, room);
    write_listing(out, room, last)
}

// Reads a script from the input, after its length in 4 bytes, to the front of a room, if that has so many bytes, and lists it: whether there was one.
pub fn list_next<R: Read, W: Write>(
    input: &mut R,
    out: &mut W,
    text: &mut [u8],
    room: &mut [u8],
) -> io::Result<bool>
    ensures { (length text.new ≡ length text.old) × (length room.new ≡ length room.old) }
{
    let mut head: [u8; 4] = [0; 4];
    if streams::read_full(input, &mut head)? < 4 {
        return Ok(false);
    }
    let n = u32::from_le_bytes(head) as usize;
    if text.len() < n {
        return Ok(false);
    }
    if streams::read_full(input, &mut text[..n])? < n {
        return Ok(false);
    }
    list_script(out, &text[..n], room)?;
    Ok(true)
}
