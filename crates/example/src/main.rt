// The README's transaction: two boards on one table agree on a mode, over frames, by one call of `step` for each event. A cartridge
// is one of the two: it has its chip in place of `hear`, and its own tables, settings and clock.
#![tactic(auto)]

mod words;

use station::{Event, Stepped};
use std::io;
use table::{Settings, Start, State};

// What a board can do, as an S field: telephony, and data by V.42 and V.34. A can do V.42 bis too.
fn own_table(name: char) -> [u8; 5] {
    match name {
        'A' => [0x80, 0xA1, 0x06, 0xD0, 0xC0],
        _ => [0x80, 0xA1, 0x02, 0xD0, 0xC0],
    }
}

// What a board wishes for, the best first: each wish is 1 if it is ready, a length and an S field. Of A's only the second is common.
fn wishes_of(name: char) -> [u8; 12] {
    match name {
        'A' => [1, 4, 0x80, 0x81, 0x06, 0xD0, 1, 4, 0x80, 0x81, 0x02, 0xD0],
        _ => [1, 4, 0x80, 0x81, 0x00, 0xD0, 1, 4, 0x80, 0x81, 0x02, 0xD0],
    }
}

// Both boards offer V.8 and ask for ACK(1), and answer CR_d with a CL.
fn settings() -> Settings {
    Settings {
        v8: true,
        short_v8: false,
        ack: true,
        on_mr_e: table::OnMrE::Ms,
        on_cr_d: table::OnCrD::Cl,
        on_cr_e: table::OnCrE::AsOnCrD,
        on_mr_d: table::OnMrD::Ms,
    }
}

// The time in milliseconds. This clock stands still; a board that has waited for more than 5000 ms gives up at its next event.
fn clock() -> u64 {
    0
}

// So many octets of a run from a place on, or none where it has fewer.
fn part(run: &[u8], start: usize, length: usize) -> &[u8] {
    let behind = run.get(start..).unwrap_or(b"");
    behind.get(..length).unwrap_or(b"")
}

// Puts the frame of a field on the line, and gives its bits: none for a field of no octets, which is refused. No bits are no frame: the
// reader refuses them, and the board hears an invalid frame.
fn send(field: &[u8], line: &mut [u8]) -> usize {
    frame::write_frame(field, 2, 1, line).unwrap_or(0)
}

// A board: its name, its state between two steps, and the buffers that it lends to each.
#[derive(Drop)]
struct Board {
    name: char,
    state: State,
    out: [u8; 128],
    store: [u8; 64],
}

impl Board {
    fn new(name: char) -> Board {
        Board {
            name,
            state: station::begin(clock()),
            out: [0; 128],
            store: [0; 64],
        }
    }

    // One step of the board, and what there is in its answer.
    fn turn(&mut self, rt: &impl Print, event: Event, field: &[u8]) -> io::Result<Stepped> {
        let name = self.name;
        let state = self.state;
        let set = settings();
        let own = own_table(name);
        let wishes = wishes_of(name);
        let now = clock();
        let out = &mut self.out;
        let store = &mut self.store;
        let stepped = station::step(state, set, &own, &wishes, event, field, now, out, store);
        // A refusal sends nothing: 1 to 5 are the caller's mistakes, by 6 and 11 all is over, by 9 and 10 nothing has changed.
        words::print_refusal(rt, name, stepped.told)?;
        // What the other board can do, or the mode that it proposed.
        words::print_stored(rt, name, part(store, 0, stepped.stored))?;
        // For the chip: a signal, or one field or two, each in a frame of its own.
        words::print_signal(rt, name, stepped.signal)?;
        words::print_sent(rt, name, part(out, 0, stepped.first))?;
        words::print_sent(rt, name, part(out, stepped.first, stepped.second))?;
        // For the board's next step.
        let next = stepped.state;
        words::print_phase(rt, name, next.phase)?;
        self.state = next;
        Ok(stepped)
    }

    // The board hears a field that the other sent: it comes as the bits of a frame.
    fn hear(&mut self, rt: &impl Print, sent: &[u8]) -> io::Result<Stepped> {
        let mut line = [0; 88];
        let bits = send(sent, &mut line);
        let mut field = [0; 64];
        match frame::read_frame(&line, bits, &mut field) {
            Ok(n) => self.turn(rt, Event::Field, part(&field, 0, n)),
            Err(_) => self.turn(rt, Event::InvalidFrame, b""),
        }
    }

    // The board hears what the other sent: a signal, or the field at the front of the other's output. A second field is sent only where
    // a CLR was heard, and here nobody sends one.
    fn answer(&mut self, rt: &impl Print, sent: Stepped, from: &[u8]) -> io::Result<Stepped> {
        match sent.signal {
            Some(heard) => self.turn(rt, Event::Signal(heard), b""),
            None => self.hear(rt, part(from, 0, sent.first)),
        }
    }
}

fn main(rt: HostRuntime) -> io::Result<()> {
    let mut a = Board::new('A');
    let mut b = Board::new('B');
    let asks = a.turn(&rt, Event::Start(Start::CrD), b"")?;
    let lists = b.answer(&rt, asks, &a.out)?;
    let picks = a.answer(&rt, lists, &b.out)?;
    let judges = b.answer(&rt, picks, &a.out)?;
    a.answer(&rt, judges, &b.out)?;
    Ok(())
}
