// A power cut at any byte of any call: what a store then has.
ghost use Rattle.std.specs.Prelude.{◌≡◌, ℕ, List, [], length};
ghost use Rattle.record_log.specs.{Log.{log_inner}, Placed.{PutsAt}, Cuts.{DidStep, StandsAtEnd, outcome, Survives}};

use crate::log::RecordLog;
use no_std_io2::io::Write;

/// A call of a log.
#[derive(Clone, Copy, Debug, Drop)]
pub enum Step<'a> {
    /// `append` of this payload.
    Append(&'a [u8]),
    /// `sync`.
    Sync,
}

// Makes one call, and returns whether it succeeded.
fn make_step<W: Write + Drop, const S: usize>(log: &mut RecordLog<W, S>, step: Step<'_>) -> bool
    ensures { DidStep W.Write log.old step.entry result log.new }
{
    match step {
        Step::Append(payload) => log.append(payload).is_ok(),
        Step::Sync => log.sync().is_ok(),
    }
}

/// Makes these calls of a log, in order, and says of each whether it succeeded. A failed call does not stop it, so a
/// retry is one more call in the list.
///
/// A power cut is a device that takes some first bytes of a write, and from then on fails; or the end of the list. The
/// held bytes are then lost, and what is left is the content of the device. It has exactly the records that were
/// there, then those that a `sync` confirmed, in order, and then none or some of the others that were appended, in
/// order; and never a part of one. Of the device it is assumed that it puts accepted bytes at its place (`PutsAt`);
/// of the old bytes behind the log, that they do not complete a record by chance (`NoneByChance`), as a new end does not.
pub fn run_log<W: Write + Drop, const S: usize>(
    log: &mut RecordLog<W, S>,
    steps: &[Step<'_>],
    done: &mut [bool],
)
    requires one_each { length done.old ≡ length steps.now }
    ensures survives { (content : W → List ℕ) (place : W → ℕ) (before : List (List ℕ)) (tail : List ℕ) → PutsAt W.Write content place
        → StandsAtEnd content place before tail log.old
        → Survives before tail (outcome ([], []) steps.now done.new) (content (log_inner log.new)) }
{
    'steps: for i in 0..steps.len() {
        done[i] = make_step(log, steps[i]);
    }
}
