// Lines in a window on the input.
ghost use Rattle.std.specs.Prelude.{◌≤◌, length};

use failure::fail;
use std::io::Read;

// Where the next line stands, unless it is not there yet, or none comes any more.
// Kept: the new form is no plainer: not yet, a line and the end are three, which an Option of an Option would nest.
#[derive(Clone, Copy, PartialEq, Eq)]
pub enum Found {
    NotYet,
    Line { start: usize, end: usize },
    End,
}

#[derive(Clone, Copy)]
pub struct Window {
    // the bytes from at up to held are yet to be looked at
    at: usize,
    held: usize,
    pub found: Found,
    // the input has no more
    over: bool,
    // a read failed, so that the input has no end: what is held is no line
    // Kept: the new form is no plainer: `replay` ends by `found` alone, and `finish` asks at the end whether a read failed.
    pub failed: bool,
    // the rest of a line that was too long comes first
    passing: bool,
}

impl Window {
    pub(super) fn new() -> Window {
        Window {
            at: 0,
            held: 0,
            found: Found::NotYet,
            over: false,
            failed: false,
            passing: false,
        }
    }

    // A line from start up to end, behind which the next one is.
    fn line(mut self, start: usize, end: usize, next: usize) -> Window {
        self.at = next;
        self.found = if self.passing {
            Found::NotYet
        } else {
            Found::Line { start, end }
        };
        self.passing = false;
        self
    }

    // A line that the window does not hold: its first bytes, which are no command, and may be those of a line that is passed over.
    fn long_line(self, held: usize) -> Window {
        let mut next = self.line(0, held, held);
        next.passing = true;
        next
    }

    fn finds(mut self, found: Found) -> Window {
        self.found = found;
        self
    }

    fn fails(mut self) -> Window {
        self.failed = true;
        self.finds(Found::End)
    }

    fn holds(mut self, held: usize, over: bool) -> Window {
        self.at = 0;
        self.held = held;
        self.over = over;
        self.found = Found::NotYet;
        self
    }
}

// Moves the bytes from at up to held to the front, and answers how many they are.
fn move_front(text: &mut [u8], at: usize, held: usize) -> usize
    requires { (at ≤ held) × (held ≤ length text.old) }
    ensures { result ≤ length text.old }
{
    text.copy_within(at..held, 0);
    held - at
}

// Reads once, behind the bytes that are held.
fn read_more<R: Read>(
    rt: &(impl Eprint + Alloc),
    input: &mut R,
    w: Window,
    text: &mut [u8],
    at: usize,
    held: usize,
) -> Window
    requires { (at ≤ held) × (held ≤ length text.old) }
{
    let from = move_front(text, at, held);
    match input.read(&mut text[from..]) {
        Ok(more) => w.holds(from + more, more == 0),
        Err(error) => {
            fail(rt, "standard input", error);
            w.fails()
        }
    }
}

// Looks for the next line, and reads once where there is none.
pub(super) fn look<R: Read>(
    rt: &(impl Eprint + Alloc),
    input: &mut R,
    w: Window,
    text: &mut [u8],
) -> Window {
    let held = w.held.min(text.len());
    let at = w.at.min(held);
    let n = ascii::until(&text[at..held], b'\n');
    let end = at + n;
    if end < held {
        return w.line(at, end, end + 1);
    }
    if w.over {
        if n == 0 {
            return w.finds(Found::End);
        }
        return w.line(at, end, held);
    }
    if at == 0 && held == text.len() {
        return w.long_line(held);
    }
    read_more(rt, input, w, text, at, held)
}

pub(super) fn line_in(text: &[u8], start: usize, end: usize) -> &[u8] {
    let to = end.min(text.len());
    &text[start.min(to)..to]
}
