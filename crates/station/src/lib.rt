// The station (RULES, The station): one step for each event, from what is heard to the agreed mode. What is sent is written
// into the output, the far side's standard field into the store; the state is a value that the caller keeps. A step goes through the
// modules in this order: gate (refusals 1 to 6, and 10 in Mode), hearing (what the event is to the table), acts (what the table says
// is to be done: a plan), sending (the plan carried out: what is lent is written there alone). What they hand on is in lent.
#![tactic(auto)]

ghost use Rattle.std.specs.Prelude.{◌≡◌};
ghost use Rattle.station.specs.Acting.{quiet};
ghost use Rattle.station.specs.Stepping.{is_reset, told_no, step_told, step_reply};
ghost use Rattle.station.specs.Promises.{TellsBegun, Steps, RefusesTables};

use acts::decide;
use choice::TablesRefusal;
use gate::{checked_gate, shut_in};
use sending::carry_out;
use table::{Phase, Settings, Signal, Start, State};

mod acts;
mod gate;
mod hearing;
mod lent;
mod sending;

// An event. The information field heard is lent beside it, and looked at only for Field.
#[derive(Clone, Copy)]
pub enum Event {
    Start(Start),
    Signal(Signal),
    Field,
    InvalidFrame,
    AnswerTone,
    Reset,
}

impl Event {
    // Whether an event is the reset.
    fn is_reset(self) -> bool
        ensures { result ≡ is_reset self }
    {
        matches!(self, Event::Reset)
    }
}

// Why an event was not acted on. BadLent: the output or the store is too small.
#[derive(Clone, Copy, Debug, PartialEq, Eq)]
pub enum StepRefusal {
    BadLent = 1,
    BadOwn = 2,
    BadWishes = 3,
    Outside = 4,
    TimeBefore = 5,
    TimedOut = 6,
    UnknownType = 9,
    NotInTable = 10,
    NothingToPropose = 11,
}

impl From<TablesRefusal> for StepRefusal {
    ghost from_gives = { RefusesTables };

    fn from(refusal: TablesRefusal) -> StepRefusal {
        match refusal {
            TablesRefusal::BadOwn => StepRefusal::BadOwn,
            TablesRefusal::BadWishes => StepRefusal::BadWishes,
            TablesRefusal::Outside => StepRefusal::Outside,
        }
    }
}

// A step's answer: what it tells, the signal to send, the lengths of the first and second field sent and of what was stored, and
// the next state. A length of 0 says that there is none: so many octets at the front of the output and of the store are new.
#[derive(Clone, Copy)]
pub struct Stepped {
    pub told: Result<(), StepRefusal>,
    pub signal: Option<Signal>,
    pub first: usize,
    pub second: usize,
    pub stored: usize,
    pub state: State,
}

// What the identification field of a message says.
#[derive(Clone, Copy)]
pub struct Offer {
    pub v8: bool,
    pub short_v8: bool,
    pub ack: bool,
}

// What the far side offers.
#[derive(Clone, Copy)]
pub struct FarOffer {
    pub v8: bool,
    pub short_v8: bool,
}

// What a step is given beside the event and what is lent.
#[derive(Clone, Copy)]
pub(crate) struct Call {
    pub(crate) phase: Phase,
    pub(crate) settings: Settings,
    pub(crate) time: u64,
}

// What a station begins as, and what reset gives.
pub fn begin(time: u64) -> State
    ensures { TellsBegun time result }
{
    State {
        phase: Phase::Initial(time),
    }
}

// Nothing is sent or stored.
fn tells(told: Result<(), StepRefusal>, phase: Phase) -> Stepped
    ensures { step_told result ≡ step_reply (quiet (told_no told) phase) }
{
    Stepped {
        told,
        signal: None,
        first: 0,
        second: 0,
        stored: 0,
        state: State { phase },
    }
}

// One step: the state, the settings, the own table, the wishes, the event with the information field heard, the time, the output and
// the store. Reset is not checked at all.
pub fn step(
    state: State,
    settings: Settings,
    own: &[u8],
    wishes: &[u8],
    event: Event,
    field: &[u8],
    time: u64,
    out: &mut [u8],
    store: &mut [u8],
) -> Stepped
    ensures { Steps state settings own.now wishes.now event field.now time out.old store.old result out.new store.new }
{
    let phase = state.phase;
    if event.is_reset() {
        return tells(Ok(()), Phase::Initial(time));
    }
    let call = Call {
        phase,
        settings,
        time,
    };
    match checked_gate(call, own, wishes, out.len(), store.len()) {
        Ok(tables) => {
            let plan = decide(event, call, tables, field);
            carry_out(plan, out, store)
        }
        Err(refusal) => {
            let next = shut_in(refusal, phase, time);
            tells(Err(refusal), next)
        }
    }
}
