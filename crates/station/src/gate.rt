// The gate: refusals 1 to 6, and 10 for every event in Mode. Nothing that is lent to be written is looked at but by its size.
ghost use Rattle.std.specs.Prelude.{◌≡◌, ◌≤◌};
ghost use Rattle.station.specs.Stepping.{is_late};
ghost use Rattle.station.specs.Inner.{shut_in, Timed, Gated};

use super::lent::Tables;
use super::{Call, StepRefusal};
use choice::check_tables;
use table::{Kind, Phase};

// The least octets of the output and of the store.
const OUTPUT_ROOM: usize = 128;

const STORE_ROOM: usize = 64;

// How long a phase other than Initial and Mode may last, in milliseconds.
const LONGEST: u64 = 5000;

// Whether a phase has lasted too long.
fn is_late(kind: Kind, entry: u64, time: u64) -> bool
    requires { entry ≤ time }
    ensures { result ≡ is_late kind entry time }
{
    if kind.is_over() {
        return false;
    }
    LONGEST < time - entry
}

// The phase behind a refusal of the gate.
pub(crate) fn shut_in(refusal: StepRefusal, phase: Phase, time: u64) -> Phase
    ensures { result ≡ shut_in refusal phase time }
{
    if refusal == StepRefusal::TimedOut {
        return Phase::Initial(time);
    }
    phase
}

// Refusals 5, 6 and 10 in Mode.
fn timed_gate(phase: Phase, time: u64) -> Result<(), StepRefusal>
    ensures { Timed phase time result }
{
    let carried = phase.carried();
    let kind = carried.kind;
    if time < carried.entry {
        return Err(StepRefusal::TimeBefore);
    }
    if is_late(kind, carried.entry, time) {
        return Err(StepRefusal::TimedOut);
    }
    if kind.is_mode() {
        return Err(StepRefusal::NotInTable);
    }
    Ok(())
}

// Refusals 1 to 4, and then the time.
pub(crate) fn checked_gate<'a>(
    call: Call,
    own: &'a [u8],
    wishes: &'a [u8],
    out_size: usize,
    store_size: usize,
) -> Result<Tables<'a>, StepRefusal>
    ensures { Gated call own.now wishes.now out_size store_size result }
{
    if out_size < OUTPUT_ROOM {
        return Err(StepRefusal::BadLent);
    }
    if store_size < STORE_ROOM {
        return Err(StepRefusal::BadLent);
    }
    check_tables(own, wishes)?;
    timed_gate(call.phase, call.time)?;
    Ok(Tables { own, wishes })
}
