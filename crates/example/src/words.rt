// What a board does, in words: a line for each thing, which begins with the board's name. What does not come up in the README's
// transaction has no name of its own here.
use message::MessageType;
use station::StepRefusal;
use std::io;
use table::{Phase, Signal};

// The line of octets that are sent or stored, if there are any.
fn print_run(rt: &impl Print, name: char, text: &str, run: &[u8]) -> io::Result<()> {
    if run.is_empty() {
        return Ok(());
    }
    print!(rt; "{name} {text}")?;
    for octet in run {
        print!(rt; " {octet:02X}")?;
    }
    println!(rt; "")
}

// The type of a message: the low four bits of its first octet.
fn kind_of(field: &[u8]) -> Option<MessageType> {
    let first = field.first()?;
    MessageType::try_from(*first % 16).ok()
}

pub(crate) fn print_sent(rt: &impl Print, name: char, field: &[u8]) -> io::Result<()> {
    match kind_of(field) {
        Some(MessageType::Ms) => print_run(rt, name, "sends MS", field),
        Some(MessageType::Cl) => print_run(rt, name, "sends CL", field),
        Some(MessageType::Ack1) => print_run(rt, name, "sends ACK(1)", field),
        _ => print_run(rt, name, "sends", field),
    }
}

pub(crate) fn print_stored(rt: &impl Print, name: char, stored: &[u8]) -> io::Result<()> {
    print_run(rt, name, "stores", stored)
}

pub(crate) fn print_refusal(
    rt: &impl Print,
    name: char,
    told: Result<(), StepRefusal>,
) -> io::Result<()> {
    match told {
        Ok(()) => Ok(()),
        Err(StepRefusal::TimedOut | StepRefusal::NothingToPropose) => {
            println!(rt; "{name} gives up")
        }
        Err(StepRefusal::UnknownType | StepRefusal::NotInTable) => {
            println!(rt; "{name} passes over it")
        }
        Err(_) => println!(rt; "{name} was called wrongly"),
    }
}

pub(crate) fn print_signal(rt: &impl Print, name: char, signal: Option<Signal>) -> io::Result<()> {
    match signal {
        None => Ok(()),
        Some(Signal::CrD) => println!(rt; "{name} sends CR_d"),
        Some(_) => println!(rt; "{name} sends another signal"),
    }
}

// The phase, with its mode: the board's wish, by its number, or what the other board proposed, which was stored.
pub(crate) fn print_phase(rt: &impl Print, name: char, phase: Phase) -> io::Result<()> {
    match phase {
        Phase::Initial(_) => println!(rt; "{name} is in Initial"),
        Phase::ListsD(_) => println!(rt; "{name} is in Lists-d"),
        Phase::Listed(_) => println!(rt; "{name} is in Listed"),
        Phase::Proposed(_, 0, _) => println!(rt; "{name} is in Proposed, as stored"),
        Phase::Proposed(_, wish, _) => println!(rt; "{name} is in Proposed, wish {wish}"),
        Phase::Mode(_, 0, _) => println!(rt; "{name} is in Mode, as stored"),
        Phase::Mode(_, wish, _) => println!(rt; "{name} is in Mode, wish {wish}"),
        _ => println!(rt; "{name} is in another phase"),
    }
}
