// Runs of calls by `io_bench`: on a tower, by their replies alone, and closed over a sink that notes its calls.
//
// A run is `write ab, write_all c, flush`, and its replies are `2, ok, !BrokenPipe`. A row `joined CALLS -> REPLIES` has
// the bytes that the run accepted, or `none`. A row of a closed run has its replies, how many inner writes it made of how
// many that it may make, and the inner calls with the lengths of their bytes.
// Of laws, a row `run CALLS` prints `kept`, or what a run breaks and its replies.
ghost use Rattle.std.specs.Prelude.{⊤};

use crate::tower::Tower;
use io_bench::{Op, Reply, Tally, joined, run_closed, run_writes};
use no_std_io2::io::{Result, Sink, Write};
use rows_play::prelude::*;
use std::alloc::Global;

// Appends an item.
fn push<T: Drop>(items: &mut Vec<T>, item: T, line: &mut Line) {
    if items.push(item).is_err() {
        line.cut();
    }
}

// Returns the calls of a run.
fn parse_calls<'a>(alloc: Global, words: &'a str, line: &mut Line) -> Vec<Call<'a>> {
    let mut calls = Vec::new(alloc);
    if words.is_empty() {
        return calls;
    }
    'calls: for call in words.split(", ") {
        match Call::parse(alloc, call) {
            Ok(call) => push(&mut calls, call, line),
            Err(fault) => line.tell(fault),
        }
    }
    calls
}

// Returns the calls of a run as `io_bench` has them.
fn ops_of<'a>(alloc: Global, calls: &'a [Call<'_>], line: &mut Line) -> Vec<Op<'a>> {
    let mut ops = Vec::new(alloc);
    'calls: for call in calls {
        match call.word {
            "write" => push(&mut ops, Op::Write(&call.bytes), line),
            "write_all" => push(&mut ops, Op::WriteAll(&call.bytes), line),
            "flush" => push(&mut ops, Op::Flush, line),
            _ => line.tell(Unplayed::NoCall),
        }
    }
    ops
}

fn show_reply(reply: &Reply, line: &mut Line) {
    match reply {
        Reply::Took(n) => line.value(*n),
        Reply::Done => line.word("ok"),
        Reply::Failed(e) => line.error(e),
    }
}

// Prints replies, or a dash if there are none.
fn show_replies(replies: &[Reply], line: &mut Line) {
    if replies.is_empty() {
        line.word("-");
    }
    'replies: for (i, reply) in replies.iter().enumerate() {
        if i > 0 {
            line.word(", ");
        }
        show_reply(reply, line);
    }
}

// Makes a run, and returns its replies.
fn run<W: Write>(alloc: Global, w: &mut W, ops: &[Op<'_>], line: &mut Line) -> Vec<Reply> {
    let mut replies = Vec::new(alloc);
    if run_writes(w, ops, &mut replies).is_err() {
        line.cut();
    }
    replies
}

/// Makes the run of a row, and prints its replies.
pub fn call_run<W: Write>(w: &mut W, call: &Call<'_>, line: &mut Line) {
    let calls = parse_calls(call.alloc, call.rest, line);
    let ops = ops_of(call.alloc, &calls, line);
    let replies = run(call.alloc, w, &ops, line);
    show_replies(&replies, line);
}

fn show_joined(alloc: Global, ops: &[Op<'_>], replies: &[Reply], line: &mut Line) {
    match joined(alloc, ops, replies) {
        Ok(Some(bytes)) => line.bytes(&bytes),
        Ok(None) => line.word("none"),
        Err(_refused) => line.cut(),
    }
}

// What a run accepted, by its replies. It has no state: its rows say everything.
#[derive(Drop)]
struct Joining;

impl Stream for Joining {
    fn play(&mut self, call: &Call<'_>, line: &mut Line) {
        let Some((words, told)) = call.rest.split_once("->") else {
            line.tell(Unplayed::NoWord);
            return;
        };
        let calls = parse_calls(call.alloc, words.trim(), line);
        let ops = ops_of(call.alloc, &calls, line);
        match parse_list(call.alloc, told.trim()) {
            Ok(replies) => show_joined(call.alloc, &ops, &replies, line),
            Err(fault) => line.tell(fault),
        }
    }
}

/// Lends `joined`.
pub fn lend_joined(player: &mut Player<'_, '_>) -> Played<()> {
    player.play(&mut Joining)
}

// A sink that notes its calls.
#[derive(Drop)]
struct Noting {
    sink: Sink,
    calls: Line,
}

impl Write for Noting {
    ghost use Rattle.no_std_io2.specs.inner.InMemory.{sink_told};

    ghost told = { λ w. sink_told w.sink };

    ghost takes_all = { λ _. ⊤ };

    fn write(&mut self, buf: &[u8]) -> Result<usize> {
        self.calls.item("write ");
        self.calls.value(buf.len() as u64);
        self.sink.write(buf)
    }

    fn flush(&mut self) -> Result<()> {
        self.calls.item("flush");
        self.sink.flush()
    }
}

// Prints the bound on the inner writes of a run of F flushes and N bytes through S: `2 * (N / (S + 1)) + F + 1`.
fn show_most(calls: &[Call<'_>], size: u64, line: &mut Line) {
    let mut given: u64 = 0;
    let mut flushes: u64 = 0;
    'calls: for call in calls {
        given = given.wrapping_add(call.bytes.len() as u64);
        flushes = flushes.wrapping_add(u64::from(call.word == "flush"));
    }
    let sent = given.checked_div(size.wrapping_add(1)).unwrap_or(0);
    line.word(" of ");
    line.value(sent.wrapping_mul(2).wrapping_add(flushes).wrapping_add(1));
    line.column();
}

// Makes a run through S bytes, and prints its columns.
fn close<const S: usize>(alloc: Global, calls: &[Call<'_>], ops: &[Op<'_>], line: &mut Line) {
    if S == 0 || S >= 1 << 32 {
        return;
    }
    let noting = Noting {
        sink: Sink::new(),
        calls: Line::new(alloc),
    };
    let mut replies = Vec::new(alloc);
    match run_closed::<Noting, S>(Tally::new(noting), ops, &mut replies) {
        Ok(tally) => {
            show_replies(&replies, line);
            line.value_column(tally.writes());
            show_most(calls, S as u64, line);
            line.text(tally.get_ref().calls.as_str());
        }
        Err(_refused) => line.cut(),
    }
}

// Closed runs through S bytes.
#[derive(Drop)]
struct Closing<const S: usize>;

impl<const S: usize> Stream for Closing<S> {
    fn play(&mut self, call: &Call<'_>, line: &mut Line) {
        let calls = parse_calls(call.alloc, call.rest, line);
        let ops = ops_of(call.alloc, &calls, line);
        close::<S>(call.alloc, &calls, &ops, line);
    }
}

/// Lends closed runs through a buffer of this size.
pub fn lend_closed(size: &str, player: &mut Player<'_, '_>) -> Played<()> {
    match size {
        "8" => player.play(&mut Closing::<8>),
        "1" => player.play(&mut Closing::<1>),
        _ => Err(Unplayed::NoStream),
    }
}

/// What stands in a tower.
#[derive(Drop)]
pub struct Parts {
    // The bytes out, and then those that are held, the inner level's first.
    all: Vec<u8>,
    // How many of these are held.
    held: usize,
    // Whether no buffer of lines holds a newline, or each ends in one.
    keeps_lines: bool,
}

impl Parts {
    /// Adds bytes that are out.
    pub fn out(&mut self, bytes: &[u8], line: &mut Line) {
        if self.all.extend_from_slice(bytes).is_err() {
            line.cut();
        }
    }

    /// Adds bytes that a level holds, which may be a buffer of lines.
    pub fn held(&mut self, bytes: &[u8], is_lines: bool, line: &mut Line) {
        self.out(bytes, line);
        self.held = self.held.wrapping_add(bytes.len());
        if is_lines && bytes.contains(&b'\n') && !bytes.ends_with(b"\n") {
            self.keeps_lines = false;
        }
    }
}

// Returns how many calls failed, or took none of their bytes.
fn failures(replies: &[Reply]) -> u64 {
    let mut failures: u64 = 0;
    'replies: for reply in replies {
        let is_failure = matches!(reply, Reply::Failed(_) | Reply::Took(0));
        failures = failures.wrapping_add(u64::from(is_failure));
    }
    failures
}

// Returns what is wrong with a tower after these replies, if anything is.
fn broken(alloc: Global, ops: &[Op<'_>], replies: &[Reply], parts: &Parts) -> &'static str {
    match joined(alloc, ops, replies) {
        Ok(Some(accepted)) if accepted == parts.all => {}
        Ok(Some(_)) => return "other bytes than were accepted",
        _ => return "no bytes are joined",
    }
    if parts.held > 0 && matches!(replies.last(), Some(Reply::Done)) {
        "held after a flush"
    } else if failures(replies) > 1 {
        "more failures than faults"
    } else if !parts.keeps_lines {
        "a line is held"
    } else {
        ""
    }
}

/// Makes the run of a row, and prints whether it keeps to the laws: what is out and then held is what it accepted; nothing
/// is held if it ends with a flush that succeeded; at most one call fails; and a buffer of lines holds no newline, or ends
/// in one.
pub fn call_lawful_run<T: Tower>(tower: &mut T, call: &Call<'_>, line: &mut Line) {
    let calls = parse_calls(call.alloc, call.rest, line);
    let ops = ops_of(call.alloc, &calls, line);
    let replies = run(call.alloc, tower, &ops, line);
    let mut parts = Parts {
        all: Vec::new(call.alloc),
        held: 0,
        keeps_lines: true,
    };
    tower.see(&mut parts, line);
    let what = broken(call.alloc, &ops, &replies, &parts);
    if what.is_empty() {
        line.word("kept");
        return;
    }
    line.word(what);
    line.word(": ");
    show_replies(&replies, line);
}
