// What is sent and stored: a plan, and how it is carried out. Messages have revision 2.
ghost use Rattle.std.specs.Prelude.{◌≡◌, true, ◌+◌, ◌≤◌, None, length};
ghost use Rattle.octets.specs.Lay.{put};
ghost use Rattle.message.specs.Kinds.{type_number};
ghost use Rattle.good.specs.Good.{good_field};
ghost use Rattle.choice.specs.Wishes.{standard_codes};
ghost use Rattle.station.specs.Sending.{sent_field};
ghost use Rattle.station.specs.Stepping.{Did};
ghost use Rattle.station.specs.Inner.{octets_of, sent_of, stored_of, planning, planned};

use super::lent::{Fields, Message};
use super::{Offer, StepRefusal, Stepped};
use message::MessageType;
use names::Keep;
use octets::copy_front;
use strike::rewrite_field;
use table::{Phase, Signal, State};
use tree::Field;

// Octet 1 of a message of revision 2 and type 0.
const REVISION_2: u8 = 0x20;

// A message to send: an ACK or a NAK, by its type, or one with fields.
#[derive(Clone, Copy)]
pub(crate) enum Outgoing<'a> {
    Bare(MessageType),
    Whole(Fields<'a>),
}

// What goes into the store: what is kept of the standard field of a message.
#[derive(Clone, Copy)]
pub(crate) struct Kept<'a> {
    pub(crate) keep: Keep,
    pub(crate) message: Message<'a>,
}

// What is to be done: what is told, the signal to send, the two messages, what is stored, and the next phase.
#[derive(Clone, Copy)]
pub(crate) struct Plan<'a> {
    pub(crate) told: Result<(), StepRefusal>,
    pub(crate) signal: Option<Signal>,
    pub(crate) first: Option<Outgoing<'a>>,
    pub(crate) second: Option<Outgoing<'a>>,
    pub(crate) storing: Option<Kept<'a>>,
    pub(crate) next: Phase,
}

impl<'a> Plan<'a> {
    // Success is told, and the phase changes: that is all.
    pub(crate) fn quiet(next: Phase) -> Plan<'a>
        ensures { result ≡ planning (Ok tt) None None None next }
    {
        Plan {
            told: Ok(()),
            signal: None,
            first: None,
            second: None,
            storing: None,
            next,
        }
    }
}

// Octet 1 of a message of a type.
fn first_octet(kind: MessageType) -> u8
    ensures { result ≡ 0x20 + type_number kind }
{
    REVISION_2 + kind as u8
}

// Puts an MS, a CL or a CLR. Its standard field is put as it is, since it is minimal.
// The field is an argument of its own, no part of a `Fields`: only so is each of its octets known to be under 256.
fn put_message(kind: MessageType, offer: Offer, standard: &[u8], out: &mut [u8]) -> usize
    requires { (type_number kind ≤ 3) × (good_field standard.now ≡ true) × (64 ≤ length out.old) }
    ensures { (result ≡ length (sent_field (type_number kind) offer (standard_codes standard.now))) × (out.new ≡ put (sent_field (type_number kind) offer (standard_codes standard.now)) out.old) × (result ≤ 31) }
{
    out[0] = first_octet(kind);
    out[1] = 128 + offer.v8 as u8 + 2 * offer.short_v8 as u8 + 8 * offer.ack as u8;
    out[2] = 128;
    let size = standard.len();
    copy_front(standard, size, &mut out[3..]);
    3 + size
}

// Puts a message, and tells its length.
fn put_one(message: Outgoing, out: &mut [u8]) -> usize
    requires { 64 ≤ length out.old }
    ensures { (result ≡ length (octets_of message.entry)) × (out.new ≡ put (octets_of message.entry) out.old) × (result ≤ 31) }
{
    match message {
        Outgoing::Bare(kind) => {
            out[0] = first_octet(kind);
            1
        }
        Outgoing::Whole(x) => put_message(x.kind, x.offer, x.standard, out),
    }
}

// Puts a message if there is one, and tells its length.
fn put_outgoing(message: Option<Outgoing>, out: &mut [u8]) -> usize
    requires { 64 ≤ length out.old }
    ensures { (result ≡ length (sent_of message.entry)) × (out.new ≡ put (sent_of message.entry) out.old) × (result ≤ 31) }
{
    match message {
        Some(one) => put_one(one, out),
        None => 0,
    }
}

// Stores what is kept of a field, in minimal form, if there is one, and tells its length.
fn put_stored(storing: Option<Kept>, store: &mut [u8]) -> usize
    requires { 64 ≤ length store.old }
    ensures { (result ≡ length (stored_of storing.entry)) × (store.new ≡ put (stored_of storing.entry) store.old) }
{
    match storing {
        Some(kept) => {
            let heard = kept.message;
            rewrite_field(
                heard.field,
                heard.standard,
                Field::Standard,
                kept.keep,
                store,
            )
            .unwrap_or(0)
        }
        None => 0,
    }
}

// Does what a plan says.
pub(crate) fn carry_out(plan: Plan, out: &mut [u8], store: &mut [u8]) -> Stepped
    requires { (128 ≤ length out.old) × (64 ≤ length store.old) }
    ensures { Did (planned plan.entry) out.old store.old result out.new store.new }
{
    let first = put_outgoing(plan.first, out);
    let second = put_outgoing(plan.second, &mut out[first..]);
    let stored = put_stored(plan.storing, store);
    Stepped {
        told: plan.told,
        signal: plan.signal,
        first,
        second,
        stored,
        state: State { phase: plan.next },
    }
}
