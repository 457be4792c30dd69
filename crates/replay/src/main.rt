// replay: recorded scripts from standard input, each after its length (docs/COMPARISON.md says how they were made). Each is run and its listing written to standard
// output, which the gate compares with the listings that the unchanged Rust gave, byte by byte.
#![tactic(auto)]

use std::io;

fn main(rt: HostRuntime) -> io::Result<()> {
    let mut input = rt.reader();
    let mut out = io::writer(&rt);
    // Room for a script of more bytes than one may have, and for the listing of ten events at a time. Kept: fixed, since no heap is used.
    let mut text = [0; 66000];
    let mut listing = [0; 66000];
    for _ in 0..100000 {
        if !output::list_next(&mut input, &mut out, &mut text, &mut listing)? {
            break;
        }
    }
    Ok(())
}
