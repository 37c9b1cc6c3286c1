// A log whose power is cut.
ghost use Rattle.std.specs.Prelude.{◌≡◌, ℕ, List, [], length};
ghost use Rattle.io_bench.specs.Faulty.{faulty_inner};
ghost use Rattle.record_log.specs.{Placed.{PutsAt, GoesNoFurther}, Cuts.{StandsAtEnd, HasConfirmed, outcome}};
ghost use Rattle.promises.specs.Survival.{content_behind_acts, place_behind_acts};

use io_bench::Faulty;
use no_std_io2::io::{Cursor, Write};
use record_log::{RecordLog, Step, run_log};

/// A writer that fails as its acts say puts its bytes where the writer behind it does. It has no `write_all` of its own,
/// so none goes too far.
pub fn puts_behind_its_acts<W: Write>(f: &Faulty<W>) -> &W
    ensures puts { (content : W → List ℕ) (place : W → ℕ) → PutsAt W.Write content place
        → PutsAt ⟦<Faulty<W> as Write>⟧ (λ f. content (faulty_inner f)) (λ f. place (faulty_inner f)) }
    ensures near { (place : W → ℕ) → GoesNoFurther ⟦<Faulty<W> as Write>⟧ (λ f. place (faulty_inner f)) }
{
    f.get_ref()
}

/// Makes calls of a log at the end of its content, over a device that fails as its acts say, and then loses what is
/// held: the confirmed records are there, and nothing is assumed.
pub fn survives_its_cut<const S: usize>(
    log: RecordLog<Faulty<Cursor<Vec<u8>>>, S>,
    steps: &[Step<'_>],
    done: &mut [bool],
) -> Faulty<Cursor<Vec<u8>>>
    requires one_each { length done.old ≡ length steps.now }
    ensures { (before : List (List ℕ)) → StandsAtEnd content_behind_acts place_behind_acts before [] log.entry
        → HasConfirmed before (outcome ([], []) steps.now done.new) (content_behind_acts result) }
{
    let mut log = log;
    run_log(&mut log, steps, done);
    log.cut()
}
