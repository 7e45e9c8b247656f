// Operation 6: one step of the station.
use station::{Event, Stepped};
use table::{OnCrD, OnCrE, OnMrD, OnMrE, Phase, Settings, Signal, Start, State};
use wire::{RUN_LIMIT, Reply, Request};

// The most octets of the wishes.
const WISHES_LIMIT: usize = 2048;

// The state of a request: phase u8, entry u64, wish u8, ACK asked u8.
fn state_in(request: &mut Request<'_>) -> Option<State> {
    let number = request.u8()?;
    let entry = request.u64()?;
    let wish = request.u8()?;
    let ack = request.flag()?;
    let phase = phase_of(number, entry, wish, ack)?;
    Some(State { phase })
}

fn phase_of(number: u8, entry: u64, wish: u8, ack: bool) -> Option<Phase> {
    match number {
        0 => Some(Phase::Initial(entry)),
        1 => Some(Phase::AskedE(entry)),
        2 => Some(Phase::AskedD(entry)),
        3 => Some(Phase::ListsE(entry)),
        4 => Some(Phase::ListsD(entry)),
        5 => Some(Phase::Counter(entry)),
        6 => Some(Phase::Listed(entry)),
        7 => Some(Phase::Traded(entry)),
        8 => Some(Phase::Pair(entry)),
        9 => Some(Phase::Half(entry)),
        10 => Some(Phase::Proposed(entry, wish, ack)),
        11 => Some(Phase::Mode(entry, wish, ack)),
        _ => None,
    }
}

// The settings of a request: seven of one octet each.
fn settings_in(request: &mut Request<'_>) -> Option<Settings> {
    Some(Settings {
        v8: request.flag()?,
        short_v8: request.flag()?,
        ack: request.flag()?,
        on_mr_e: on_mr_e_of(request.u8()?)?,
        on_cr_d: on_cr_d_of(request.flag()?),
        on_cr_e: on_cr_e_of(request.flag()?),
        on_mr_d: on_mr_d_of(request.flag()?),
    })
}

fn on_mr_e_of(number: u8) -> Option<OnMrE> {
    match number {
        0 => Some(OnMrE::Ms),
        1 => Some(OnMrE::MrD),
        2 => Some(OnMrE::CrD),
        _ => None,
    }
}

fn on_cr_d_of(clr: bool) -> OnCrD {
    if clr { OnCrD::Clr } else { OnCrD::Cl }
}

fn on_cr_e_of(cr_d: bool) -> OnCrE {
    if cr_d { OnCrE::CrD } else { OnCrE::AsOnCrD }
}

fn on_mr_d_of(cr_d: bool) -> OnMrD {
    if cr_d { OnMrD::CrD } else { OnMrD::Ms }
}

fn start_of(what: u8) -> Option<Start> {
    match what {
        0 => Some(Start::MrE),
        1 => Some(Start::MrD),
        2 => Some(Start::CrE),
        3 => Some(Start::CrD),
        4 => Some(Start::Ms),
        5 => Some(Start::Cl),
        6 => Some(Start::Clr),
        _ => None,
    }
}

fn signal_of(what: u8) -> Option<Signal> {
    match what {
        0 => Some(Signal::MrE),
        1 => Some(Signal::MrD),
        2 => Some(Signal::CrE),
        3 => Some(Signal::CrD),
        _ => None,
    }
}

// The event of a request: its number u8, and which start or signal it is u8, 0 for any other event.
fn event_in(request: &mut Request<'_>) -> Option<Event> {
    match (request.u8()?, request.u8()?) {
        (0, what) => Some(Event::Start(start_of(what)?)),
        (1, what) => Some(Event::Signal(signal_of(what)?)),
        (2, 0) => Some(Event::Field),
        (3, 0) => Some(Event::InvalidFrame),
        (4, 0) => Some(Event::AnswerTone),
        (5, 0) => Some(Event::Reset),
        _ => None,
    }
}

// Request: state, settings, own table, wishes, event u8, what u8, field, time u64, out, store. Reply: no u8, the state, signal u8, the
// lengths of the first and second field and of what was stored, u16 each, out, store.
pub(crate) fn station_step(mut request: Request<'_>) -> Option<Reply> {
    let state = state_in(&mut request)?;
    let set = settings_in(&mut request)?;
    let own = request.run(RUN_LIMIT)?;
    let wishes = request.run(WISHES_LIMIT)?;
    let event = event_in(&mut request)?;
    let field = request.run(RUN_LIMIT)?;
    let now = request.u64()?;
    let mut out_room = [0; RUN_LIMIT];
    let out = request.buffer(&mut out_room)?;
    let mut store_room = [0; RUN_LIMIT];
    let store = request.buffer(&mut store_room)?;
    request.end()?;
    let stepped = station::step(state, set, own, wishes, event, field, now, out, store);
    let mut reply = head_of_step(stepped);
    reply.put_run(out);
    reply.put_run(store);
    Some(reply)
}

// What a step answers, before the buffers.
fn head_of_step(stepped: Stepped) -> Reply {
    let state = stepped.state;
    let refusal = stepped.told.err();
    let mut reply = Reply::new(refusal.map_or(0, |refusal| refusal as u8));
    put_phase(&mut reply, state.phase);
    // the probe's own numbers of signals, from 1 on: 0 is none
    reply.put_u8(stepped.signal.map_or(0, |signal| signal as u8 + 1));
    reply.put_count(stepped.first);
    reply.put_count(stepped.second);
    reply.put_count(stepped.stored);
    reply
}

// A phase: its number, entry u64, wish u8, ACK asked u8.
fn put_phase(reply: &mut Reply, phase: Phase) {
    let carried = phase.carried();
    let kind = carried.kind;
    reply.put_u8(kind.number());
    reply.put_u64(carried.entry);
    reply.put_u8(carried.wish);
    reply.put_u8(carried.ack as u8);
}
