// The listing program (RULES, The listing program): it reads one information field from standard input and prints what the message reader tells of
// it, in lines of a key and a value, or the number of the refusal alone. Nothing is struck.
#![tactic(auto)]

ghost use Rattle.std.specs.Prelude.{◌≤◌, length, IfOk};

use message::{Message, MessageType};
use std::io::{ErrorKind, Read};
use std::{fmt, io};

// The octets that are read: one more than a message may have, so that a longer input is refused for its length.
const FIELD_LIMIT: usize = 65;

// The numbers that the message reader has to be lent.
const LIST_ROOM: usize = 448;

// A code is ((f * 512 + s) * 512 + t) * 512 + n.
const POSITIONS: u32 = 512;

const OF_S: u32 = POSITIONS * POSITIONS;

const OF_F: u32 = OF_S * POSITIONS;

// The f of a code, with which it is compared.
const IDENTIFICATION: u32 = 1;

const STANDARD: u32 = 2;

// A code, printed as s.t.n.
#[derive(Clone, Copy)]
struct Code(u32);

impl Code {
    fn field(self) -> u32 {
        self.0 / OF_F
    }
}

impl fmt::Display for Code {
    fn fmt<W: fmt::Write>(&self, f: &mut fmt::Formatter<W>) -> fmt::Result {
        let s = self.0 / OF_S % POSITIONS;
        let t = self.0 / POSITIONS % POSITIONS;
        let n = self.0 % POSITIONS;
        write!(f, "{s}.{t}.{n}")
    }
}

// The listing's own words for a type.
fn name_of(kind: MessageType) -> &'static str {
    match kind {
        MessageType::Ms => "MS",
        MessageType::Cl => "CL",
        MessageType::Clr => "CLR",
        MessageType::Ack1 => "ACK(1)",
        MessageType::Ack2 => "ACK(2)",
        MessageType::Nak1 => "NAK(1)",
        MessageType::Nak2 => "NAK(2)",
        MessageType::Nak3 => "NAK(3)",
        MessageType::Nak4 => "NAK(4)",
    }
}

// The line of a type: the message reader tells of known ones alone.
fn print_type(rt: &impl Print, kind: u8) -> io::Result<()> {
    match MessageType::try_from(kind) {
        Ok(known) => println!(rt; "type={}", name_of(known)),
        Err(_) => Ok(()),
    }
}

// The line of a field: its codes in the list.
fn print_field(rt: &impl Print, key: &str, list: &[u32], field: u32) -> io::Result<()> {
    print!(rt; "{key}=")?;
    let mut comma = "";
    for number in list {
        let code = Code(*number);
        if code.field() == field {
            print!(rt; "{comma}{code}")?;
            comma = ",";
        }
    }
    println!(rt; "")
}

// The lines of a message, whose codes are the first of the list.
fn print_message(rt: &impl Print, m: Message, list: &[u32]) -> io::Result<()> {
    let codes = list.get(..m.count).unwrap_or(list);
    let revision = m.revision;
    let ns = m.ns;
    let length = ns.length;
    print_type(rt, m.kind)?;
    println!(rt; "rev={revision}")?;
    print_field(rt, "i", codes, IDENTIFICATION)?;
    print_field(rt, "s", codes, STANDARD)?;
    println!(rt; "ns={length}")
}

// What is printed for an information field.
fn print_listing(rt: &impl Print, field: &[u8]) -> io::Result<()> {
    let mut list = [0; LIST_ROOM];
    match message::read_message(field, &mut list) {
        Ok(m) => print_message(rt, m, &list),
        Err(refusal) => println!(rt; "refusal={}", refusal as u8),
    }
}

// Reads octets up to the end of the input, as many as there is room for, and says how many there were: the place where it ended.
fn read_full(input: &mut impl Read, octets: &mut [u8]) -> io::Result<usize>
    ensures { IfOk result (λ n. n ≤ length octets.new) }
{
    for i in 0..octets.len() {
        match input.read_exact(&mut octets[i..i + 1]) {
            Ok(()) => {}
            Err(error) if error.kind() == ErrorKind::UnexpectedEof => return Ok(i),
            Err(error) => return Err(error),
        }
    }
    Ok(octets.len())
}

fn main(rt: HostRuntime) -> io::Result<()> {
    let mut field = [0; FIELD_LIMIT];
    let size = read_full(&mut rt.stdin(), &mut field)?;
    print_listing(&rt, &field[..size])
}
