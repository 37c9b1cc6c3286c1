// What the devices for tests and the streams that keep nothing do.
ghost use Rattle.std.specs.Prelude.{ℕ, List, [], ◌∷◌, ◌≡◌, ◌<◌, ◌≤◌, ◌++◌, None, IsErr, Ok, OnOk, Some, drop, length, map};
ghost use Rattle.io_bench.specs.{Appended.{appended}, Faulty.{WritesBehind, act_mishaps, acts_left, faulty_inner, next_act}};
ghost use Rattle.io_bench.specs.{Feed.{all_to_come, feed_answer, feed_left, feed_piece}, declared.feed.Event.TheVariants.{Byte, Fail}};
ghost use Rattle.io_bench.specs.{Runs.{AreWhole, failures}, Tally.{tally_inner}};
ghost use Rattle.no_std_io2.specs.{BufWriter.{writer_inner}, Takes.{answered, gave_front, tells, Takes, to_come}, Meter.{FillsRoom}};
ghost use Rattle.no_std_io2.specs.inner.InMemory.{sink_taken};

use io_bench::{Faulty, Feed, Op, Reply, Tally, run_writes};
use no_std_io2::io::{BufWriter, Empty, ErrorKind, Read, Result, Sink, Write};

// Over a sink behind a `Faulty`, at most as many calls of a run fail as acts do. If no act is left, each call accepts
// all its bytes.
fn fails_as_its_acts_do<const S: usize, const T: usize>(
    w: &mut BufWriter<BufWriter<Tally<Faulty<Sink>>, S>, T>,
    ops: &[Op<'_>],
    replies: &mut Vec<Reply>,
) -> Result<()>
    ensures fails { OnOk result (failures ops.now (appended replies.old.items replies.new.items)
        ≤ length (act_mishaps (acts_left (tally_inner (writer_inner (writer_inner w.old)))))) }
    ensures whole { acts_left (tally_inner (writer_inner (writer_inner w.old))) ≡ []
        → OnOk result (AreWhole ops.now (appended replies.old.items replies.new.items)) }
{
    run_writes(w, ops, replies)
}

// A write of a `Faulty` uses up an act, and does what the act says.
fn uses_up_an_act<W: Write>(w: &mut Box<Faulty<W>>, x: &[u8]) -> Result<usize>
    ensures used { acts_left w.new.value ≡ drop 1 (acts_left w.old.value) }
    ensures does { WritesBehind W.Write (next_act w.old.value) (faulty_inner w.old.value) x.now result (faulty_inner w.new.value) }
{
    w.write(x)
}

// A `Feed` gives its script, and each read as much as its bound lets through.
fn feeds_its_script(f: &mut Box<Feed>, buf: &mut [u8]) -> Result<usize>
    ensures takes { Takes (record {
      events = Some (all_to_come (feed_left f.old.value));
      store = None;
      turns = length
          (feed_left f.old.value);
    })
        (answered (gave_front result buf.new))
        (record { events = Some (all_to_come (feed_left f.new.value)); store = None; turns = length (feed_left f.new.value) }) }
    ensures answer { gave_front result buf.new ≡ feed_answer f.old.value (length buf.new) }
{
    f.read(buf)
}

// A `Feed` of a failure and then bytes, which one read may give, is filling once the failure has come.
fn fills_after_its_failure(f: &mut Feed, buf: &mut [u8]) -> Result<usize>
    ensures { (kind : ErrorKind) → (x : List ℕ) → feed_left f.old ≡ Fail kind ∷ map Byte x → length x ≤ feed_piece f.old
        → 0 < length buf.old → IsErr result × FillsRoom ⟦<Feed as Read>⟧ f.new }
{
    f.read(buf)
}

// A `Sink` and an `Empty` take all.
fn sinks_all(sink: &mut Box<Sink>, empty: &mut Box<Empty>, x: &[u8]) -> Result<(usize, usize)>
    ensures all { result ≡ Ok (length x.now, length x.now) }
    ensures sunk { sink_taken sink.new.value ≡ sink_taken sink.old.value ++ x.now }
    ensures emptied { (⟦<Empty as Write>⟧.told empty.new.value).out ≡ (⟦<Empty as Write>⟧.told empty.old.value).out ++ x.now }
    ensures nothing { to_come (tells ⟦<Empty as Read>⟧ empty.new.value) ≡ Some [] }
{
    Ok((sink.write(x)?, Write::write(empty, x)?))
}
