// Replays scripts of calls: reads lines from standard input, makes each call with the proved libraries, and prints its answer as one line.
// Nothing is kept of a line that was read but what the calls left; a script may be of any length. The store of the last granted restore stands in
// one half of the run and of the records, and the next one is read into the other half, where a row of veil or read stands too.
#![tactic(auto)]

mod answers;
mod commands;
mod window;

ghost use Rattle.std.specs.Prelude.{◌≡◌, ◌≤◌, length};

use answers::{answer, pairs_open, print};
use calls_session::Session;
use commands::one_line;
use layout::Question;
use sheet::State;
use std::io::Read;
use window::{Found, Window, line_in, look};

// What there is to be lent: chains, skipped keys, pairs above contiguous, unacked numbers, expired pairs, bytes of output.
const CHAINS: usize = 256;

const SKIPPED: usize = 500;

const ABOVE: usize = 7680;

const UNACKED: usize = 15360;

const EXPIRED: usize = 7680;

const OUT: usize = 65536;

// What a line asks for.
// Kept: the new form is no plainer: that nothing is asked for, or the end, is one request of six here, and neither an absence nor a refusal.
#[derive(Clone, Copy)]
enum Asked {
    Nothing,
    // that a script begins
    Begin,
    // that the state is printed
    State,
    // that an answer is printed which is known: its tag and two numbers
    // Kept: what may not change: calls_list takes calls, and leaves answers, as numbers (calls_code), here and in Call.
    Show(u64, u64, u64),
    // that the program ends, since the line is none
    Unknown,
    // a call, as its code and numbers
    Call([u64; calls_code::CALL]),
}

// ---- what is kept between lines, beside the session and the memory

#[derive(Clone, Copy)]
struct Script {
    // the number of the last line
    number: u64,
    // what the line asks for
    asked: Asked,
    // the restore that is being read: lines to come, bytes of the run and entries so far, and where they go
    left: u64,
    len: usize,
    entries: usize,
    start: usize,
    first: usize,
    sheet: State,
    // Kept: the new form is no plainer: an enum of the two restores would be taken apart and made again for each line.
    raw: bool,
    // the lent lengths, in bytes and numbers
    chains: usize,
    skipped: usize,
    above: usize,
    unacked: usize,
    expired: usize,
    out: usize,
    // so many pairs above contiguous were written
    written: usize,
}

// So many, or all that there are.
// Kept: the new form is no plainer: std has no `From` between `usize` and `u64`, and try_from has an error that never comes, here and below.
fn at_most(count: u64, has: usize) -> usize
    ensures { result ≤ has }
{
    if count < has as u64 {
        return count as usize;
    }
    has
}

impl Script {
    fn new() -> Script {
        let sheet = sheet::begin();
        Script {
            number: 0,
            asked: Asked::Nothing,
            left: 0,
            len: 0,
            entries: 0,
            start: 0,
            first: 0,
            sheet,
            raw: false,
            chains: 0,
            skipped: 0,
            above: 0,
            unacked: 0,
            expired: 0,
            out: 0,
            written: 0,
        }
        .lends_all()
    }

    fn lends_all(self) -> Script {
        self.lends(u64::MAX, u64::MAX, u64::MAX, u64::MAX, u64::MAX, u64::MAX)
    }

    fn lends(
        mut self,
        chains: u64,
        skipped: u64,
        above: u64,
        unacked: u64,
        expired: u64,
        out: u64,
    ) -> Script {
        self.chains = contact_lent::CHAIN_PLACE * at_most(chains, CHAINS);
        self.skipped = contact_lent::SKIPPED_PLACE * at_most(skipped, SKIPPED);
        self.above = 2 * at_most(above, ABOVE);
        self.unacked = at_most(unacked, UNACKED);
        self.expired = 2 * at_most(expired, EXPIRED);
        self.out = at_most(out, OUT);
        self
    }

    fn asks(mut self, asked: Asked) -> Script {
        self.asked = asked;
        self
    }

    fn restores(self, len: usize, n: usize) -> Script {
        self.asks(Asked::Call([
            calls_code::RESTORE,
            self.start as u64,
            len as u64,
            self.first as u64,
            n as u64,
            0,
        ]))
    }

    // Nothing is restored, everything is lent.
    fn begins(mut self) -> Script {
        self.written = 0;
        self.lends_all().asks(Asked::Begin)
    }

    fn unknown(self) -> Script {
        self.asks(Asked::Unknown)
    }

    // A row that was written, or why it was not.
    fn shows(self, written: Result<usize, Question>) -> Script {
        self.asks(match written {
            Ok(n) => Asked::Show(calls_code::WROTE, n as u64, 0),
            Err(refusal) => Asked::Show(calls_code::NO, u64::from(refusal.number()), 0),
        })
    }

    // Behind a call that leaves a store from this entry on, and so many pairs above contiguous.
    fn after(mut self, first: usize, above: usize) -> Script {
        self.start = sheet::BLOB_BYTES;
        self.first = sheet::LINES;
        if 0 < first {
            self.start = 0;
            self.first = 0;
        }
        self.written = self.written.max(above);
        self
    }
}

// A restore whose lines are not all there ends at the first that is missing, unless it is not known what comes, since a read failed.
fn finish(rt: &(impl Print + Eprint + Alloc), s: Script, failed: bool, line: &mut [u8]) {
    if failed {
        return;
    }
    if 0 < s.left {
        let number = std::num::wrapping_add_u64(s.number, 1);
        let unknown = replay_answer::number_line(b"? ", number, line);
        print(rt, unknown, line);
    }
}

#[derive(Clone, Copy)]
struct Left {
    session: Session,
    s: Script,
}

fn ends(asked: Asked, printed: bool) -> bool {
    !printed || matches!(asked, Asked::Unknown)
}

// What a line asks for, where there is one. None behind a line that is none, or that could not be printed: the script is over.
fn turn(
    rt: &(impl Print + Eprint + Alloc),
    session: Session,
    s: Script,
    w: Window,
    text: &[u8],
    run: &mut [u8],
    records: &mut [u64],
    chains: &mut [u8],
    skipped: &mut [u8],
    above: &mut [u32],
    unacked: &mut [u32],
    expired: &mut [u32],
    out: &mut [u8],
    line: &mut [u8],
) -> Option<Left> {
    let Found::Line { start, end } = w.found else {
        return Some(Left { session, s });
    };
    let asked = one_line(s, line_in(text, start, end), run, records, out);
    let answered = answer(
        session, asked, run, records, chains, skipped, above, unacked, expired, out, line,
    );
    let said = answered.said;
    let printed = print(rt, said, line);
    let after = answered.session;
    let mark = after.mark;
    let next = asked.after(after.first, pairs_open(mark, after.contact.above));
    if ends(next.asked, printed) {
        return None;
    }
    Some(Left {
        session: after,
        s: next,
    })
}

// A proved loop has to end, and nothing says that the input does: the turns have a number that no run uses up.
fn replay<R: Read>(
    rt: &(impl Print + Eprint + Alloc),
    input: &mut R,
    text: &mut [u8],
    run: &mut [u8],
    records: &mut [u64],
    chains: &mut [u8],
    skipped: &mut [u8],
    above: &mut [u32],
    unacked: &mut [u32],
    expired: &mut [u32],
    out: &mut [u8],
    line: &mut [u8],
) {
    let mut session = calls_session::begin();
    let mut s = Script::new();
    let mut w = Window::new();
    for _ in 0..u64::MAX {
        w = look(rt, input, w, text);
        if w.found == Found::End {
            finish(rt, s, w.failed, line);
            return;
        }
        let Some(left) = turn(
            rt, session, s, w, text, run, records, chains, skipped, above, unacked, expired, out,
            line,
        ) else {
            return;
        };
        session = left.session;
        s = left.s;
    }
}

// ---- the memory. Kept: fixed memory and no heap, so `main` has it in local arrays

fn window_bytes() -> [u8; 262144]
    ensures { 262144 ≡ length result }
{
    [0; 262144]
}

// Two runs, and the records of two times 512 entries.
fn runs() -> [u8; 122880]
    ensures { 122880 ≡ length result }
{
    [0; 122880]
}

fn entry_records() -> [u64; 6144]
    ensures { 6144 ≡ length result }
{
    [0; 6144]
}

// The places of 256 chains, of 500 skipped keys, of 7,680 pairs or 15,360 numbers.
fn chain_places() -> [u8; 13056]
    ensures { 13056 ≡ length result }
{
    [0; 13056]
}

fn skipped_places() -> [u8; 23000]
    ensures { 23000 ≡ length result }
{
    [0; 23000]
}

fn numbers() -> [u32; 15360]
    ensures { 15360 ≡ length result }
{
    [0; 15360]
}

fn out_bytes() -> [u8; OUT]
    ensures { 65536 ≡ length result }
{
    [0; OUT]
}

// The text of a row of 131,072 bytes and of 7,680 pairs, with what stands around it.
fn longest_line() -> [u8; 431360]
    ensures { 431360 ≡ length result }
{
    [0; 431360]
}

fn main(rt: HostRuntime) {
    let mut input = rt.stdin();
    let mut text = window_bytes();
    let mut run = runs();
    let mut records = entry_records();
    let mut chains = chain_places();
    let mut skipped = skipped_places();
    let mut above = numbers();
    let mut unacked = numbers();
    let mut expired = numbers();
    let mut out = out_bytes();
    let mut line = longest_line();
    replay(
        &rt,
        &mut input,
        &mut text,
        &mut run,
        &mut records,
        &mut chains,
        &mut skipped,
        &mut above,
        &mut unacked,
        &mut expired,
        &mut out,
        &mut line,
    );
}
