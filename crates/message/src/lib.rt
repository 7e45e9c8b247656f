// Messages (V.8 bis clause 8): the message reader, and NS as a part of a message.
#![tactic(auto)]

ghost use Rattle.std.specs.Prelude.{◌≡◌, true, ◌-◌, ◌≤◌, ◌<◌, ltb, length};
ghost use Rattle.octets.specs.Places.{pick};
ghost use Rattle.message.specs.Kinds.{known, has_fields, type_of, type_number};
ghost use Rattle.message.specs.Nonstandard.{tail_form};
ghost use Rattle.tree.specs.Fields.{most_octets};
ghost use Rattle.tree.specs.Form.{told};
ghost use Rattle.message.specs.Reader.{list_room, Reads, ReadsOctets, span_told};
ghost use Rattle.message.specs.Inner.{ReadsBoth};
ghost use Rattle.message.specs.Promises.{TellsType, TellsRefusal, TellsKnown, TellsFields, TellsNsForm, Checks, TellsNs};

use fill::fill_fields;
use tree::{Fault, MOST_OCTETS, field_end};

// The types of messages that are used here (V.8 bis, Table 3), of which those before ACK(1) have fields.
#[derive(Clone, Copy, Debug, PartialEq, Eq)]
pub enum MessageType {
    Ms = 1,
    Cl = 2,
    Clr = 3,
    Ack1 = 4,
    Ack2 = 5,
    Nak1 = 8,
    Nak2 = 9,
    Nak3 = 10,
    Nak4 = 11,
}

// A number that none of them has.
#[derive(Clone, Copy, Debug, PartialEq, Eq)]
pub struct UnknownKind;

impl TryFrom<u8> for MessageType {
    type Error = UnknownKind;

    ghost try_from_gives = { TellsType };

    fn try_from(kind: u8) -> Result<Self, UnknownKind> {
        match kind {
            1 => Ok(MessageType::Ms),
            2 => Ok(MessageType::Cl),
            3 => Ok(MessageType::Clr),
            4 => Ok(MessageType::Ack1),
            5 => Ok(MessageType::Ack2),
            8 => Ok(MessageType::Nak1),
            9 => Ok(MessageType::Nak2),
            10 => Ok(MessageType::Nak3),
            11 => Ok(MessageType::Nak4),
            _ => Err(UnknownKind),
        }
    }
}

const LIST_ROOM: usize = 448;

const FEWEST_NS: usize = 2;

const MOST_NS: usize = 63;

// Octets of a message: from where on, and how many.
#[derive(Clone, Copy)]
pub struct Span {
    pub at: usize,
    pub length: usize,
}

// A message that was read: its type and revision, how many codes it has, and where its NS lies. The type is a number, so that `ns_part`
// takes any message.
#[derive(Clone, Copy)]
pub struct Message {
    pub kind: u8,
    pub revision: u8,
    pub count: usize,
    pub ns: Span,
}

// Why a message is refused, by the rules' number.
#[derive(Clone, Copy, Debug, PartialEq, Eq)]
pub enum MessageFault {
    BadSize = 2,
    UnknownType = 3,
    Malformed = 4,
}

// Why the message reader refuses, by the rules' number. BadLent: the list has room for fewer than 448 numbers.
#[derive(Clone, Copy, Debug, PartialEq, Eq)]
pub enum MessageReadRefusal {
    BadLent = 1,
    BadSize = 2,
    UnknownType = 3,
    Malformed = 4,
}

impl From<MessageFault> for MessageReadRefusal {
    ghost from_gives = { TellsRefusal };

    fn from(fault: MessageFault) -> Self {
        match fault {
            MessageFault::BadSize => MessageReadRefusal::BadSize,
            MessageFault::UnknownType => MessageReadRefusal::UnknownType,
            MessageFault::Malformed => MessageReadRefusal::Malformed,
        }
    }
}

// Whether a type is one of those that are used here.
pub fn is_known(kind: u8) -> bool
    ensures { TellsKnown kind result }
{
    MessageType::try_from(kind).is_ok()
}

// Whether a known type has fields.
pub fn has_fields(kind: u8) -> bool
    ensures { TellsFields kind result }
{
    kind < MessageType::Ack1 as u8
}

// The form of the NS blocks from a place on. One is due there. A block tells how long it is, so places are counted.
pub fn ns_form(s: &[u8], start: usize) -> Result<(), Fault>
    ensures { TellsNsForm s.now start result }
{
    let size = s.len();
    let mut e = start;
    while e < size {
        let n = s[e] as usize;
        if n < FEWEST_NS {
            return Err(Fault::BadLength(e));
        }
        if MOST_NS < n {
            return Err(Fault::BadLength(e));
        }
        if size - e - 1 < n {
            return Err(Fault::Early(size));
        }
        e = e + 1 + n;
        if e == size {
            return Ok(());
        }
    }
    Err(Fault::Early(size))
}

// The form of what stands behind S, from a place on.
fn tail_form(s: &[u8], e: usize) -> Result<(), Fault>
    requires { 1 < length s.now }
    ensures { result ≡ told (tail_form s.now e) tt }
{
    if (s[1] / 64) % 2 == 1 {
        return ns_form(s, e);
    }
    if e == s.len() {
        return Ok(());
    }
    Err(Fault::Left(e))
}

// The NS of a message: all from a place on, nowhere where nothing is there.
fn ns_span(s: &[u8], tail: usize) -> Span
    requires { tail ≤ length s.now }
    ensures { (result.at ≡ pick (ltb tail (length s.now)) tail 0) × (result.length ≡ length s.now - tail) }
{
    let at = if tail < s.len() { tail } else { 0 };
    Span {
        at,
        length: s.len() - tail,
    }
}

// A well-formed message: its type, and where S and what is behind S begin. An ACK and a NAK have neither.
#[derive(Clone, Copy)]
pub struct Parts {
    pub kind: MessageType,
    pub standard: usize,
    pub tail: usize,
}

// A message with fields: I, then S, then what is behind S decides. Asked only for the ends of the fields, the back end keeps no form
// of theirs on the stack.
fn check_fields(s: &[u8], kind: MessageType) -> Result<Parts, MessageFault>
    requires { (0 < length s.now) × (length s.now ≤ most_octets) × (known (type_of s.now) ≡ true) × (has_fields (type_of s.now) ≡ true) × (type_number kind ≡ type_of s.now) }
    ensures { Checks s.now result }
{
    let Some(standard) = field_end(s, 1) else {
        return Err(MessageFault::Malformed);
    };
    let Some(tail) = field_end(s, standard) else {
        return Err(MessageFault::Malformed);
    };
    if tail_form(s, tail).is_err() {
        return Err(MessageFault::Malformed);
    }
    Ok(Parts {
        kind,
        standard,
        tail,
    })
}

// Whether a message is well-formed, and where its parts begin: refusals 2 to 4 of the message reader.
pub fn check_message(s: &[u8]) -> Result<Parts, MessageFault>
    ensures { Checks s.now result }
{
    if s.len() == 0 {
        return Err(MessageFault::BadSize);
    }
    if MOST_OCTETS < s.len() {
        return Err(MessageFault::BadSize);
    }
    let number = s[0] % 16;
    let Ok(kind) = MessageType::try_from(number) else {
        return Err(MessageFault::UnknownType);
    };
    if has_fields(number) {
        return check_fields(s, kind);
    }
    if s.len() != 1 {
        return Err(MessageFault::Malformed);
    }
    Ok(Parts {
        kind,
        standard: 1,
        tail: 1,
    })
}

// Reads a well-formed message, whose parts are known: its codes into both lists. Behind an ACK and a NAK there are none, and nothing is
// gone over.
fn read_parts(s: &[u8], parts: Parts, list: &mut [u32], octets: &mut [u8]) -> Message
    requires { Checks s.now (Ok parts) }
    ensures { ReadsBoth s.now list_room list.old octets.old (Ok result) list.new octets.new }
{
    let kind = s[0] % 16;
    let revision = s[0] / 16;
    if !has_fields(kind) {
        return Message {
            kind,
            revision,
            count: 0,
            ns: Span { at: 0, length: 0 },
        };
    }
    Message {
        kind,
        revision,
        count: fill_fields(s, 1, parts.standard, list, octets),
        ns: ns_span(s, parts.tail),
    }
}

// Reads a message into both lists, with room for so many numbers: the caller lends an empty one for the form that it does not want, as
// `fill_fields` takes them.
fn read_both(
    s: &[u8],
    room: usize,
    list: &mut [u32],
    octets: &mut [u8],
) -> Result<Message, MessageReadRefusal>
    ensures { ReadsBoth s.now room list.old octets.old result list.new octets.new }
{
    if room < LIST_ROOM {
        return Err(MessageReadRefusal::BadLent);
    }
    let parts = check_message(s)?;
    Ok(read_parts(s, parts, list, octets))
}

// The message reader: it fills the first numbers of the list with the message's codes, in ascending order.
pub fn read_message(s: &[u8], list: &mut [u32]) -> Result<Message, MessageReadRefusal>
    ensures { Reads s.now list.old result list.new }
{
    let room = list.len();
    let mut none = [0u8; 0];
    read_both(s, room, list, &mut none)
}

// The same into a list of octets, four to a code, lowest first: two functions to call, one way through `read_both`.
pub fn read_octets(s: &[u8], list: &mut [u8]) -> Result<Message, MessageReadRefusal>
    ensures { ReadsOctets s.now list.old result list.new }
{
    let room = list.len() / 4;
    let mut none = [0u32; 0];
    read_both(s, room, &mut none, list)
}

// Where an answer says that NS lies; a refusal says nowhere.
fn told_span(answer: Result<Message, MessageReadRefusal>) -> Span
    ensures { result ≡ span_told answer }
{
    match answer {
        Ok(m) => m.ns,
        Err(_) => Span { at: 0, length: 0 },
    }
}

// The NS that an answer tells of, as a part of the message; empty where the answer is a refusal. The answer may be of another message,
// so both its numbers are tested.
pub fn ns_part(s: &[u8], answer: Result<Message, MessageReadRefusal>) -> &[u8]
    ensures { TellsNs s.now answer result.now }
{
    let span = told_span(answer);
    let at = span.at;
    let length = span.length;
    if s.len() < at {
        return &s[0..0];
    }
    if s.len() - at < length {
        return &s[0..0];
    }
    let end = at + length;
    &s[at..end]
}
