// Tags as document 01's listing has them.
use std::fmt;
use tags::Tag;

// Seconds, nanoseconds and microstep joined by colons, or `-` where there is no tag.
#[derive(Clone, Copy)]
pub struct Shown(pub Option<Tag>);

impl fmt::Display for Shown {
    fn fmt<W: fmt::Write>(&self, f: &mut fmt::Formatter<W>) -> fmt::Result {
        let Some(tag) = self.0 else {
            return write!(f, "-");
        };
        let Tag {
            seconds,
            nanoseconds,
            microstep,
        } = tag;
        write!(f, "{seconds}:{nanoseconds}:{microstep}")
    }
}
