// The reader of a script (document 01, "Script and its listing"): "The reader holds the script and its place, and hands out each line as that part of the
// script." New here: the Rust has no scripts. It refuses nothing: past the script every line is empty. `line_from` and `place_after` serve whoever has a
// script and a place in hand.
#![tactic(auto)]

ghost use Rattle.std.specs.Prelude.{◌≡◌, leb, ltb, length};
ghost use Rattle.reader.specs.Lines.{end_of, line_at, next_at};

// The script, and the place in it where the next line begins.
#[derive(Clone, Copy)]
pub struct Reader<'a> {
    pub script: &'a [u8],
    pub at: usize,
}

// Where the line at a place ends: at its LF, or with the script; at the place itself if that is past the script.
fn end_of(script: &[u8], at: usize) -> usize
    ensures { result ≡ end_of script.now at }
{
    if script.len() <= at {
        return at;
    }
    let length = numerals::find(&script[at..], 10);
    at + length
}

// Whether the line at a place has its LF.
pub fn is_ended(script: &[u8], at: usize) -> bool
    ensures { result ≡ ltb (end_of script.now at) (length script.now) }
{
    end_of(script, at) < script.len()
}

// Kept: functions of these names in place of methods, since docs/PROMISES.md names them so (a).

// A reader of the script, from the place on.
pub fn open_at<'a>(script: &'a [u8], at: usize) -> Reader<'a>
    ensures { (result.script ≡ script.entry) × (result.at ≡ at) }
{
    Reader { script, at }
}

// The line that it has come to, without its LF, as that part of the script; none is past the script.
pub fn line<'a>(reader: Reader<'a>) -> &'a [u8]
    ensures { result.now ≡ line_at reader.entry.script.now reader.entry.at }
{
    let script = reader.script;
    let end = end_of(script, reader.at);
    if reader.at <= script.len() {
        return &script[reader.at..end];
    }
    &script[0..0]
}

// The reader past that line and its LF; where it has none, at its end.
pub fn advanced<'a>(reader: Reader<'a>) -> Reader<'a>
    ensures { (result.script ≡ reader.entry.script) × (result.at ≡ next_at reader.entry.script.now reader.entry.at) }
{
    let script = reader.script;
    let end = end_of(script, reader.at);
    let at = if end < script.len() { end + 1 } else { end };
    Reader { script, at }
}

// Whether it is at the script's end.
pub fn is_at_end<'a>(reader: Reader<'a>) -> bool
    ensures { result ≡ leb (length reader.entry.script.now) reader.entry.at }
{
    reader.script.len() <= reader.at
}

// The line that a reader opened at the place hands out.
pub fn line_from<'a>(script: &'a [u8], at: usize) -> &'a [u8]
    ensures { result.now ≡ line_at script.now at }
{
    line(open_at(script, at))
}

// The place to which a reader opened at the place moves on.
pub fn place_after<'a>(script: &'a [u8], at: usize) -> usize
    ensures { result ≡ next_at script.now at }
{
    advanced(open_at(script, at)).at
}
