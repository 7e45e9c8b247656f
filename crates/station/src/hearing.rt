// What an event is to the table.
ghost use Rattle.std.specs.Prelude.{◌≡◌};
ghost use Rattle.message.specs.Kinds.{type_number};
ghost use Rattle.station.specs.Sorting.{type_heard};
ghost use Rattle.station.specs.Inner.{Hears};

use super::Event;
use message::{MessageFault, MessageType, check_message};
use table::Heard;

// Which message was heard. Both types are other crates', so this is no `From`.
fn type_heard(kind: MessageType) -> Heard
    ensures { result ≡ type_heard (type_number kind) }
{
    match kind {
        MessageType::Ms => Heard::Ms,
        MessageType::Cl => Heard::Cl,
        MessageType::Clr => Heard::Clr,
        MessageType::Ack1 => Heard::Ack1,
        MessageType::Ack2 => Heard::Ack2,
        MessageType::Nak1 => Heard::Nak,
        MessageType::Nak2 => Heard::Nak,
        MessageType::Nak3 => Heard::Nak,
        MessageType::Nak4 => Heard::Nak,
    }
}

// What a field is to the table, and where the standard field of a message with fields is; nothing where the message is of unknown type.
fn hear_field(field: &[u8]) -> Option<(Heard, usize)>
    ensures { Hears Event.Field field.now result }
{
    match check_message(field) {
        Ok(parts) => Some((type_heard(parts.kind), parts.standard)),
        Err(MessageFault::BadSize) => Some((Heard::Spoilt, 0)),
        Err(MessageFault::UnknownType) => None,
        Err(MessageFault::Malformed) => Some((Heard::Spoilt, 0)),
    }
}

// What an event is to the table, likewise.
// Where no field was heard the place is 0, and never looked at: an Option would have an arm in `perform` that no act reaches.
pub(crate) fn hear(event: Event, field: &[u8]) -> Option<(Heard, usize)>
    ensures { Hears event field.now result }
{
    match event {
        Event::Start(start) => Some((Heard::Start(start), 0)),
        Event::Signal(signal) => Some((Heard::Signal(signal), 0)),
        Event::Field => hear_field(field),
        Event::InvalidFrame => Some((Heard::Spoilt, 0)),
        Event::AnswerTone => Some((Heard::AnswerTone, 0)),
        Event::Reset => None,
    }
}
