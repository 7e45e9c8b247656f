// What bench/ measures from C: a step of the station, the message reader and writer, and striking, on numbers and slices alone. No
// part of the public side.
#![tactic(auto)]

use station::Event;
use table::{OnCrD, OnCrE, OnMrD, OnMrE, Phase, Settings, State};

// A refusal's number is told above this: C gets one number.
const REFUSED: u64 = 1000;

// All that can be offered is offered: a program's own settings, as each program has its own.
fn settings() -> Settings {
    Settings {
        v8: true,
        short_v8: true,
        ack: true,
        on_mr_e: OnMrE::Ms,
        on_cr_d: OnCrD::Cl,
        on_cr_e: OnCrE::AsOnCrD,
        on_mr_d: OnMrD::Ms,
    }
}

// The octets that a step sends and stores: a field is heard 1 ms after a phase was entered. Both exports take it in, so that the step
// keeps an entry of its own, from which bench/ measures its stack.
#[inline(always)]
fn octets_of_step(
    phase: Phase,
    own: &[u8],
    wishes: &[u8],
    field: &[u8],
    out: &mut [u8],
    store: &mut [u8],
) -> u64 {
    let state = State { phase };
    let event = Event::Field;
    let stepped = station::step(state, settings(), own, wishes, event, field, 1, out, store);
    let first = stepped.first % 65536;
    let second = stepped.second % 65536;
    let stored = stepped.stored % 65536;
    (first + second + stored) as u64
}

// A list is heard where it is due: in Lists-d.
#[unsafe(no_mangle)]
pub extern "C" fn kamvezhor_measure_list(
    own: &[u8],
    wishes: &[u8],
    field: &[u8],
    out: &mut [u8],
    store: &mut [u8],
) -> u64 {
    octets_of_step(Phase::ListsD(0), own, wishes, field, out, store)
}

// An MS is heard where it is due: in Asked-d.
#[unsafe(no_mangle)]
pub extern "C" fn kamvezhor_measure_mode(
    own: &[u8],
    wishes: &[u8],
    field: &[u8],
    out: &mut [u8],
    store: &mut [u8],
) -> u64 {
    octets_of_step(Phase::AskedD(0), own, wishes, field, out, store)
}

// The message reader: how many codes there are, or the refusal.
#[unsafe(no_mangle)]
pub extern "C" fn kamvezhor_measure_read(message: &[u8], list: &mut [u32]) -> u64 {
    match message::read_message(message, list) {
        Ok(m) => m.count as u64,
        Err(refusal) => REFUSED + refusal as u64,
    }
}

// The message writer: how many octets there are, or the refusal.
#[unsafe(no_mangle)]
pub extern "C" fn kamvezhor_measure_write(
    kind: u8,
    revision: u8,
    list: &[u32],
    ns: &[u8],
    out: &mut [u8],
) -> u64 {
    match writer::write_message(kind, revision, list, ns, out) {
        Ok(n) => n as u64,
        Err(refusal) => REFUSED + refusal as u64,
    }
}

// Striking: how many octets there are, or the refusal.
#[unsafe(no_mangle)]
pub extern "C" fn kamvezhor_measure_strike(message: &[u8], out: &mut [u8]) -> u64 {
    match strike::strike_message(message, out) {
        Ok(n) => n as u64,
        Err(refusal) => REFUSED + refusal as u64,
    }
}
