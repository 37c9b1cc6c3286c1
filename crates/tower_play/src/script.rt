// The script of `play`: acts of the device, and then calls of a writer, one in each line.
ghost use Rattle.std.specs.Prelude.{◌≡◌, ℕ, ◌+◌, ◌-◌, ◌≤◌, List, [], ◌∷◌, ◌++◌, take, drop, IfSome, IfNone, None, ◌<◌, OnOk, OnErr, IfOk};
ghost use Rattle.std.specs.Prelude.{IfErr, length, vec_len, vec_capacity, true, false, ◌⊎◌};
ghost use Rattle.no_std_io2.specs.{Errors.{IsOutOfMemory}, inner.{Faults.{HasFirstFault}, Iterators.{split_reader, split_delim}}};
ghost use Rattle.no_std_io2.specs.{inner.Iterators.{split_is_ended}, Takes.{tells, to_come}, declared.io.ErrorKind.{ErrorKind as Kind}};
ghost use Rattle.tower_play.specs.{Faults.{IsNumbered, IfIo, IfLine}, Script.{IsCount, IsTextArgument, unescaped, IsAppended}};
ghost use Rattle.tower_play.specs.{Calls.{IsNext, AreCalls, AddsText, IsFull}, Reading.{Adds, IsBadLine, IsRead, IsBadAt, LineLacksRoom}};
ghost use Rattle.tower_play.specs.{declared.script.Line.{Line as Said, TheVariants.{Bad}}, Lines.{Says, IsGood, text_step}};
ghost use Rattle.io_bench.specs.Kinds.{kind_name};

use crate::memory::{Refused, reserve};
use crate::playing::Fault;
use io_bench::{Act, Op, kind_of_name};
use no_std_io2::io::{BufRead, ErrorKind, Split};
use std::alloc::Global;

/// What a line of a script says. Its text is still escaped.
#[derive(Clone, Copy)]
enum Line<'a> {
    Empty,
    Act(Act),
    Write(&'a [u8]),
    WriteAll(&'a [u8]),
    Flush,
    Bad,
}

/// A call of the script. The number is the length of its text, which is the next part of the
/// script's texts.
#[derive(Clone, Copy)]
enum Step {
    Write(usize),
    WriteAll(usize),
    Flush,
}

/// A script whose lines are all good: the acts of the device, and the calls.
#[derive(Drop)]
pub struct Script {
    pub acts: Vec<Act>,
    pub calls: Calls,
}

/// The calls of a script.
#[derive(Drop)]
pub struct Calls {
    steps: Vec<Step>,
    // The texts of all steps, one after another.
    texts: Vec<u8>,
}

impl Script {
    /// Reads a script line by line. It keeps no line after it has read it, and reads all lines before it reports
    /// a bad one.
    ///
    /// # Errors
    /// Returns a fault of the reader, `OutOfMemory` if an allocation failed, or the number of the
    /// first bad line, from 1.
    pub fn read<R: BufRead + Drop>(alloc: Global, lines: Split<R>) -> Result<Script, Fault>
        ensures numbered { IfErr result IsNumbered }
        // It reads every line, and the script has what each line says.
        ensures read { split_is_ended lines ≡ false → IfOk result (λ script. IfSome (to_come (tells R.Read (split_reader lines)))
            (λ E. IsRead (split_delim lines) E script)) }
        // A reported bad line is the first one; all lines were read.
        ensures first { split_is_ended lines ≡ false → IfErr result (IfLine (λ n.
            IfSome (to_come (tells R.Read (split_reader lines))) (λ E. IsBadAt (split_delim lines) E n))) }
        // Any other error is the first fault of the reader, or a failed allocation.
        ensures stops { split_is_ended lines ≡ false → IfErr result (IfIo (λ e.
            IfSome (to_come (tells R.Read (split_reader lines))) (λ E. HasFirstFault E e) ⊎ IsOutOfMemory e)) }
    {
        let mut script = Script {
            acts: Vec::new(alloc),
            calls: Calls {
                steps: Vec::new(alloc),
                texts: Vec::new(alloc),
            },
        };
        let mut number = 0u64;
        let mut bad = None;
        'lines: for line in lines {
            let line = line?;
            number = number.saturating_add(1);
            if bad.is_none() && !script.add_line(&line)? {
                bad = Some(number);
            }
        }
        match bad {
            Some(number) => Err(Fault::Line(number)),
            None => Ok(script),
        }
    }

    // Adds what a line says. Returns `false` if the line is bad.
    fn add_line(&mut self, line: &[u8]) -> Result<bool, Refused>
        ensures good { IfOk result (λ good. good ≡ true → IsGood line.now) }
        ensures adds { IfOk result (λ good. good ≡ true → Adds line.now self.old self.new) }
        ensures bad { IfOk result (λ good. good ≡ false → IsBadLine line.now self.old) }
        // It does not fail if there is room for what the line says, nor if the line is empty or says nothing.
        ensures full { OnErr result ((said : Said) × Says line.now said × LineLacksRoom said self.old) }
    {
        match parse_line(line) {
            Line::Empty => Ok(true),
            Line::Act(act) => self.add_act(act),
            Line::Write(text) => self.calls.add_text(text, false),
            Line::WriteAll(text) => self.calls.add_text(text, true),
            Line::Flush => {
                self.calls.add_step(Step::Flush)?;
                Ok(true)
            }
            Line::Bad => Ok(false),
        }
    }

    // Adds an act of the device. Returns `false` if a call came before it.
    fn add_act(&mut self, act: Act) -> Result<bool, Refused>
        ensures added { IfOk result (λ good. good ≡ true → (vec_len self.old.calls.steps ≡ 0)
            × (self.new.acts.items ≡ self.old.acts.items ++ act ∷ []) × (self.new.calls ≡ self.old.calls)) }
        ensures bad { IfOk result (λ good. good ≡ false → 0 < vec_len self.old.calls.steps) }
        ensures full { OnErr result ((vec_len self.old.calls.steps ≡ 0) × (vec_capacity self.old.acts < vec_len self.old.acts + 1)) }
    {
        if !self.calls.steps.is_empty() {
            return Ok(false);
        }
        reserve(&mut self.acts, 1)?;
        self.acts.push_reserved(act);
        Ok(true)
    }
}

impl Calls {
    /// Returns the calls, in order.
    ///
    /// # Errors
    /// Returns an error if an allocation failed.
    pub fn ops(&self, alloc: Global) -> Result<Vec<Op<'_>>, Refused>
        ensures count { IfOk result (λ ops. vec_len ops ≡ vec_len self.now.steps) }
        ensures calls { IfOk result (λ ops. AreCalls self.now ops.items) }
        // It does not fail if there are no calls.
        ensures full { OnErr result (0 < vec_len self.now.steps) }
    {
        let mut ops = Vec::new(alloc);
        reserve(&mut ops, self.steps.len())?;
        let mut rest = self.texts.as_slice();
        'steps: for step in &self.steps {
            let (op, next) = next_op(*step, rest);
            ops.push_reserved(op);
            rest = next;
        }
        Ok(ops)
    }

    // Adds a call with this escaped text. Returns `false` if the text has a bad escape.
    fn add_text(&mut self, text: &[u8], is_whole: bool) -> Result<bool, Refused>
        ensures adds { IfOk result (λ good. good ≡ true → AddsText is_whole text.now self.old self.new) }
        ensures bad { IfOk result (λ good. good ≡ false → unescaped text.now ≡ None) }
        ensures full { OnErr result (IsFull (length text.now) self.old) }
        ensures added { IfOk result (λ good. good ≡ true
            → self.new.steps.items ≡ self.old.steps.items ++ text_step is_whole (vec_len self.new.texts - vec_len self.old.texts) ∷ []) }
    {
        let start = self.texts.len();
        reserve(&mut self.texts, text.len())?;
        if !unescape(text, &mut self.texts) {
            return Ok(false);
        }
        let length = self.texts.len() - start;
        self.add_step(if is_whole {
            Step::WriteAll(length)
        } else {
            Step::Write(length)
        })?;
        Ok(true)
    }

    fn add_step(&mut self, step: Step) -> Result<(), Refused>
        ensures added { OnOk result ((self.new.steps.items ≡ self.old.steps.items ++ step ∷ []) × (self.new.texts ≡ self.old.texts)) }
        ensures full { OnErr result (vec_capacity self.old.steps < vec_len self.old.steps + 1) }
    {
        reserve(&mut self.steps, 1)?;
        self.steps.push_reserved(step);
        Ok(())
    }
}

// Returns the call of a step whose text is at the front of `texts`, and the texts after it.
fn next_op(step: Step, texts: &[u8]) -> (Op<'_>, &[u8])
    ensures { IsNext step texts.now result.0 result.1.now }
{
    match step {
        Step::Write(length) => {
            let (text, rest) = split_text(texts, length);
            (Op::Write(text), rest)
        }
        Step::WriteAll(length) => {
            let (text, rest) = split_text(texts, length);
            (Op::WriteAll(text), rest)
        }
        Step::Flush => (Op::Flush, texts),
    }
}

fn split_text(texts: &[u8], len: usize) -> (&[u8], &[u8])
    ensures front { result.0.now ≡ take len texts.now }
    ensures rest { result.1.now ≡ drop len texts.now }
{
    texts.split_at(len.min(texts.len()))
}

// Appends the bytes that an escaped text stands for. Returns `false` if it has a bad escape.
fn unescape(text: &[u8], bytes: &mut Vec<u8>) -> bool
    requires { vec_len bytes.old + length text.now ≤ vec_capacity bytes.old }
    ensures grows { vec_len bytes.old ≤ vec_len bytes.new }
    ensures meant { IsAppended (unescaped text.now) result bytes.old.items bytes.new.items }
{
    let mut is_escaped = false;
    'bytes: for b in text {
        if is_escaped {
            match *b {
                b'n' => bytes.push_reserved(b'\n'),
                b'\\' => bytes.push_reserved(b'\\'),
                _ => return false,
            }
            is_escaped = false;
        } else if *b == b'\\' {
            is_escaped = true;
        } else {
            bytes.push_reserved(*b);
        }
    }
    !is_escaped
}

fn parse_line(line: &[u8]) -> Line<'_>
    ensures says { Says line.now result }
    ensures bad { result ≡ Bad → IsGood line.now → ⊥ }
{
    let Some((letter, rest)) = line.split_first() else {
        return Line::Empty;
    };
    match *letter {
        b't' => match argument(rest).and_then(parse_count) {
            Some(count) => Line::Act(Act::Take(count)),
            None => Line::Bad,
        },
        b'z' if rest.is_empty() => Line::Act(Act::Zero),
        b'e' => match argument(rest).and_then(parse_kind) {
            Some(kind) => Line::Act(Act::Fail(kind)),
            None => Line::Bad,
        },
        b'w' => match text_argument(rest) {
            Some(text) => Line::Write(text),
            None => Line::Bad,
        },
        b'a' => match text_argument(rest) {
            Some(text) => Line::WriteAll(text),
            None => Line::Bad,
        },
        b'f' if rest.is_empty() => Line::Flush,
        _ => Line::Bad,
    }
}

// Returns what follows one space.
fn argument(rest: &[u8]) -> Option<&[u8]>
    ensures some { IfSome result (λ x. rest.now ≡ 32 ∷ x.now) }
    ensures none { IfNone result ((x : List ℕ) → rest.now ≡ 32 ∷ x → ⊥) }
{
    match rest.split_first() {
        Some((b' ', argument)) => Some(argument),
        _ => None,
    }
}

// Returns what follows one space, or an empty text if there is nothing at all.
fn text_argument(rest: &[u8]) -> Option<&[u8]>
    ensures some { IfSome result (λ x. IsTextArgument rest.now x.now) }
    ensures none { IfNone result ((x : List ℕ) → IsTextArgument rest.now x → ⊥) }
{
    if rest.is_empty() {
        Some(rest)
    } else {
        argument(rest)
    }
}

// Returns the kind of this name.
fn parse_kind(name: &[u8]) -> Option<ErrorKind>
    ensures kind { IfSome result (λ kind. name.now ≡ kind_name kind) }
    ensures none { IfNone result ((kind : Kind) → name.now ≡ kind_name kind → ⊥) }
{
    kind_of_name(std::str::from_utf8(name).ok()?)
}

// Returns the number of one to five digits, if it is below 2^16.
fn parse_count(digits: &[u8]) -> Option<usize>
    ensures count { IfSome result (IsCount digits.now) }
    ensures none { IfNone result ((n : ℕ) → IsCount digits.now n → ⊥) }
{
    if digits.len() > 5 || digits.starts_with(b"+") {
        return None;
    }
    let count = std::str::from_utf8(digits).ok()?.parse::<u16>().ok()?;
    Some(usize::from(count))
}
