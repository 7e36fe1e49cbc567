// What came of a call, in words and numbers.

use bufmodel::answer::Pinned;
use bufmodel::control::Control;
use bufmodel::refusal::Refusal;
use buftag::link::Link;
use std::fmt;

// What a call answered.
#[derive(Clone, Copy)]
pub(crate) struct Said<T>(pub(crate) Result<T, Refusal>);

// Why it was refused.
#[derive(Clone, Copy)]
struct Refused(Refusal);

impl fmt::Display for Refused {
    fn fmt<W: fmt::Write>(&self, f: &mut fmt::Formatter<W>) -> fmt::Result {
        write!(f, "refused {}", u32::from(self.0))
    }
}

impl fmt::Display for Said<()> {
    fn fmt<W: fmt::Write>(&self, f: &mut fmt::Formatter<W>) -> fmt::Result {
        match self.0 {
            Ok(()) => write!(f, "done"),
            Err(refusal) => write!(f, "{}", Refused(refusal)),
        }
    }
}

// The pages that were written back.
impl fmt::Display for Said<u64> {
    fn fmt<W: fmt::Write>(&self, f: &mut fmt::Formatter<W>) -> fmt::Result {
        match self.0 {
            Ok(pages) => write!(f, "pages {pages}"),
            Err(refusal) => write!(f, "{}", Refused(refusal)),
        }
    }
}

impl fmt::Display for Said<Pinned> {
    fn fmt<W: fmt::Write>(&self, f: &mut fmt::Formatter<W>) -> fmt::Result {
        match self.0 {
            Ok(pinned) => {
                let hit = if pinned.hit { ", hit" } else { "" };
                let wrote = if pinned.wrote { ", wrote" } else { "" };
                write!(
                    f,
                    "buffer {}{hit}{wrote}, probes {}",
                    pinned.buffer.0, pinned.probes
                )
            }
            Err(refusal) => write!(f, "{}", Refused(refusal)),
        }
    }
}

// The top of the free list.
#[derive(Clone, Copy)]
pub(crate) struct Top(pub(crate) i32);

impl fmt::Display for Top {
    fn fmt<W: fmt::Write>(&self, f: &mut fmt::Formatter<W>) -> fmt::Result {
        match Link::from(self.0) {
            Link::To(buffer) => write!(f, "top {buffer}"),
            _ => write!(f, "none free"),
        }
    }
}

// The log's positions.
#[derive(Clone, Copy)]
pub(crate) struct Log(pub(crate) Control);

impl fmt::Display for Log {
    fn fmt<W: fmt::Write>(&self, f: &mut fmt::Formatter<W>) -> fmt::Result {
        write!(
            f,
            "inserted {}, flushed {}",
            self.0.inserted, self.0.flushed
        )
    }
}

// How many bytes a part has, and the three that are written here.
#[derive(Clone, Copy)]
pub(crate) struct Part<'a>(pub(crate) &'a [u8]);

impl fmt::Display for Part<'_> {
    fn fmt<W: fmt::Write>(&self, f: &mut fmt::Formatter<W>) -> fmt::Result {
        let part = self.0;
        write!(f, "bytes {}", part.len())?;
        if part.len() > 12 {
            write!(f, ", from 10 on {} {} {}", part[10], part[11], part[12])?;
        }
        Ok(())
    }
}
