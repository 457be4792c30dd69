// rigscript (document 01, "Script and its listing"): a script on standard input, at most 4,096 of its events run, the listing on standard output.
#![tactic(auto)]

use std::io;

fn main(rt: HostRuntime) -> io::Result<()> {
    // One byte more than a script may have, so that a longer one shows. Kept: fixed, since no heap is used.
    let mut bytes = [0; 65537];
    let n = streams::read_full(&mut rt.reader(), &mut bytes)?;
    // Room for the listing of ten events at a time.
    let mut room = [0; 56000];
    output::list_script(&mut io::writer(&rt), &bytes[..n], &mut room)
}
