// What is lent, once it is found good: the tables with the messages that are made of them, and a message with fields that was heard.
ghost use Rattle.std.specs.Prelude.{◌≡◌, ◌≤◌, true};
ghost use Rattle.message.specs.Kinds.{has_fields, type_of, type_number};
ghost use Rattle.message.specs.Reader.{list_room, standard_at, read_message, accepted};
ghost use Rattle.good.specs.Good.{good_field};
ghost use Rattle.choice.specs.Wishes.{good_wishes};
ghost use Rattle.station.specs.Sending.{mode_offer};

use super::sending::Outgoing;
use super::{FarOffer, Offer};
use choice::Pick;
use message::MessageType;
use table::Settings;
use tree::Field;
use within::has_first;

// The positions of V.8, Short V.8 and Transmit ACK(1) in the identification field.
const V8: u32 = 1;

const SHORT_V8: u32 = 2;

const ASKS_ACK: u32 = 4;

// The own table and the wishes.
#[derive(Clone, Copy)]
pub(crate) struct Tables<'a> {
    pub(crate) own: &'a [u8],
    pub(crate) wishes: &'a [u8],
    ghost good_own: { good_field own.now ≡ true },
    ghost good_wishes: { good_wishes wishes.now ≡ true },
}

// A message with fields that was heard, and where its standard field is.
#[derive(Clone, Copy)]
pub(crate) struct Message<'a> {
    pub(crate) field: &'a [u8],
    pub(crate) standard: usize,
    ghost fine: { read_message field.now list_room ≡ accepted },
    ghost fields: { has_fields (type_of field.now) ≡ true },
    ghost place: { standard ≡ standard_at field.now },
}

// An MS, a CL or a CLR to send: its type, its offer and its standard field, which is minimal.
#[derive(Clone, Copy)]
pub(crate) struct Fields<'a> {
    pub(crate) kind: MessageType,
    pub(crate) offer: Offer,
    pub(crate) standard: &'a [u8],
    ghost few: { type_number kind ≤ 3 },
    ghost good: { good_field standard.now ≡ true },
}

impl<'a> Tables<'a> {
    ghost use Rattle.choice.specs.Choosing.{chosen};
    ghost use Rattle.station.specs.Sending.{sent_list, sent_mode};
    ghost use Rattle.station.specs.Inner.{Lies, octets_of};

    // A CL or a CLR with the own table, which offers what the settings say.
    pub(crate) fn list(self, kind: MessageType, settings: Settings) -> Outgoing<'a>
        requires { type_number kind ≤ 3 }
        ensures { octets_of result ≡ sent_list (type_number kind) settings self.entry.own.now }
    {
        let offer = Offer {
            v8: settings.v8,
            short_v8: settings.short_v8,
            ack: false,
        };
        Outgoing::Whole(Fields {
            kind,
            offer,
            standard: self.own,
        })
    }

    // The MS of a wish.
    pub(crate) fn mode(self, wish: Pick, settings: Settings, far: FarOffer) -> Outgoing<'a>
        requires { Lies self.wishes.now (chosen wish) }
        ensures { octets_of result ≡ sent_mode settings far self.entry.wishes.now wish }
    {
        let start = wish.at;
        let end = start + wish.length;
        Outgoing::Whole(Fields {
            kind: MessageType::Ms,
            offer: mode_offer(settings, far),
            standard: &self.wishes[start..end],
        })
    }
}

// An MS offers Short V.8 if both do, else V.8 if both do.
fn mode_offer(settings: Settings, far: FarOffer) -> Offer
    ensures { result ≡ mode_offer settings far }
{
    let short_v8 = settings.short_v8 && far.short_v8;
    let v8 = !short_v8 && settings.v8 && far.v8;
    Offer {
        v8,
        short_v8,
        ack: settings.ack,
    }
}

impl<'a> Message<'a> {
    ghost use Rattle.std.specs.Prelude.{◌+◌, ◌<◌};
    ghost use Rattle.tree.specs.Codes.{field_base};
    ghost use Rattle.tree.specs.Fields.{is_in};
    ghost use Rattle.message.specs.Reader.{message_codes};
    ghost use Rattle.station.specs.Acting.{far_offer, asks_ack};

    // Whether it has a position of the first octet of its identification field.
    fn says(self, q: u32) -> bool
        requires { (0 < q) × (q < 8) }
        ensures { result ≡ is_in (field_base 1 + q) (message_codes self.entry.field.now) }
    {
        has_first(self.field, 1, Field::Identification, q)
    }

    // Whether it asks for ACK(1).
    pub(crate) fn asks_ack(self) -> bool
        ensures { result ≡ asks_ack self.entry.field.now }
    {
        self.says(ASKS_ACK)
    }

    // What a list offers.
    pub(crate) fn far_offer(self) -> FarOffer
        ensures { result ≡ far_offer self.entry.field.now }
    {
        FarOffer {
            v8: self.says(V8),
            short_v8: self.says(SHORT_V8),
        }
    }
}
