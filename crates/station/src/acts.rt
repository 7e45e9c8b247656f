// What the table's acts do: from what was heard of the far side, the own table and the wishes to what is to be sent and stored.
ghost use Rattle.std.specs.Prelude.{◌≡◌, true, ◌+◌, ◌≤◌, [], ◌∷◌};
ghost use Rattle.tree.specs.Fields.{codes_in};
ghost use Rattle.message.specs.Kinds.{type_number};
ghost use Rattle.message.specs.Reader.{standard_at};
ghost use Rattle.choice.specs.Wishes.{wishes_of, standard_codes};
ghost use Rattle.choice.specs.Choosing.{unheard, choice, choice_told};
ghost use Rattle.choice.specs.Judging.{nak_of, verdict};
ghost use Rattle.table.specs.Phases.{wish_of, ack_of};
ghost use Rattle.table.specs.Inner.{needs_field};
ghost use Rattle.station.specs.Sending.{no_offer, sent_list};
ghost use Rattle.station.specs.Sorting.{sort_of};
ghost use Rattle.station.specs.Acting.{quiet, signals, sends, waiting, proposes, takes, judges, does};
ghost use Rattle.station.specs.Stepping.{told_no, sorted};
ghost use Rattle.station.specs.Inner.{Standing, Lies, sent_of, stored_of, proposed, then_ms, planned};

use super::hearing::hear;
use super::lent::{Message, Tables};
use super::sending::{Kept, Outgoing, Plan};
use super::{Call, Event, FarOffer, StepRefusal};
use choice::{ModeRefusal, Pick, first_common, first_ready, judge_mode};
use message::MessageType;
use names::Keep;
use table::{Act, After, Phase, Signal, act_of};
use tree::Field;

// Something is told, and no more.
fn tells<'a>(told: Result<(), StepRefusal>, next: Phase) -> Plan<'a>
    ensures { planned result ≡ quiet (told_no told) next }
{
    Plan {
        told,
        ..Plan::quiet(next)
    }
}

// A signal is sent.
fn signals<'a>(signal: Signal, next: Phase) -> Plan<'a>
    ensures { planned result ≡ signals signal next }
{
    Plan {
        signal: Some(signal),
        ..Plan::quiet(next)
    }
}

// A message is sent, or none, and something stored, or nothing.
fn sends<'a>(first: Option<Outgoing<'a>>, storing: Option<Kept<'a>>, next: Phase) -> Plan<'a>
    ensures { planned result ≡ sends (sent_of first.entry) [] (stored_of storing.entry) next }
{
    Plan {
        first,
        storing,
        ..Plan::quiet(next)
    }
}

// A CL or a CLR is sent, and nothing stored.
fn send_list<'a>(kind: MessageType, call: Call, tables: Tables<'a>, next: Phase) -> Plan<'a>
    requires { type_number kind ≤ 3 }
    ensures { planned result ≡ sends (sent_list (type_number kind) call.settings tables.entry.own.now) [] [] next }
{
    sends(Some(tables.list(kind, call.settings)), None, next)
}

// The MS of a choice, after a CL or alone; nothing at all where there is none. A CL to send would be told by an Option with the same two
// arms.
fn propose<'a>(
    found: Option<Pick>,
    after_cl: bool,
    call: Call,
    far: FarOffer,
    storing: Option<Kept<'a>>,
    tables: Tables<'a>,
) -> Plan<'a>
    requires { Lies tables.wishes.now (choice_told found) }
    ensures { planned result ≡ proposed after_cl (choice_told found) call.settings far tables.entry.own.now tables.entry.wishes.now (stored_of storing.entry) call.time }
{
    let settings = call.settings;
    match found {
        Some(wish) => {
            let number = wish.number as u8;
            let mode = tables.mode(wish, settings, far);
            let next = Phase::Proposed(call.time, number, settings.ack);
            if after_cl {
                return Plan {
                    second: Some(mode),
                    ..sends(
                        Some(tables.list(MessageType::Cl, call.settings)),
                        storing,
                        next,
                    )
                };
            }
            sends(Some(mode), storing, next)
        }
        None => Plan {
            told: Err(StepRefusal::NothingToPropose),
            ..sends(None, storing, Phase::Initial(call.time))
        },
    }
}

// A list was heard: the first ready wish that both can do is proposed, after a CL or alone.
fn propose_common<'a>(after_cl: bool, call: Call, tables: Tables<'a>, list: Message<'a>) -> Plan<'a>
    ensures { planned result ≡ takes (then_ms after_cl) call.settings tables.entry.own.now tables.entry.wishes.now list.entry.field.now call.time }
{
    let storing = Some(Kept {
        keep: Keep::Named,
        message: list,
    });
    let found = first_common(tables.own, tables.wishes, list.field, list.standard);
    propose(found, after_cl, call, list.far_offer(), storing, tables)
}

// A list was heard: it is stored, and then comes what the table says.
fn take_list<'a>(after: After, call: Call, tables: Tables<'a>, list: Message<'a>) -> Plan<'a>
    ensures { planned result ≡ takes after call.settings tables.entry.own.now tables.entry.wishes.now list.entry.field.now call.time }
{
    let storing = Some(Kept {
        keep: Keep::Named,
        message: list,
    });
    match after {
        After::ThenMs => propose_common(false, call, tables, list),
        After::ThenClMs => propose_common(true, call, tables, list),
        After::ThenCl => {
            let answer = tables.list(MessageType::Cl, call.settings);
            sends(Some(answer), storing, Phase::Listed(call.time))
        }
        After::ThenHalf => sends(None, storing, Phase::Half(call.time)),
    }
}

// An MS was accepted: it is stored, and ACK(1) is sent if it asks for that.
fn accept_mode<'a>(mode: Message<'a>, time: u64) -> Plan<'a>
    ensures { planned result ≡ judges 0 mode.entry.field.now time }
{
    let storing = Some(Kept {
        keep: Keep::All,
        message: mode,
    });
    if mode.asks_ack() {
        let ack = Outgoing::Bare(MessageType::Ack1);
        return sends(Some(ack), storing, Phase::Mode(time, 0, true));
    }
    sends(None, storing, Phase::Mode(time, 0, false))
}

// A NAK is sent.
fn refuse<'a>(nak: MessageType, time: u64) -> Plan<'a>
    ensures { planned result ≡ sends ((0x20 + type_number nak) ∷ []) [] [] (Phase.Initial time) }
{
    sends(Some(Outgoing::Bare(nak)), None, Phase::Initial(time))
}

// The NAK that an MS is refused with. Both types are other crates', so this is no `From`.
fn nak_for(refusal: ModeRefusal) -> MessageType
    ensures { type_number result ≡ 7 + nak_of (Err refusal) }
{
    match refusal {
        ModeRefusal::NotReady => MessageType::Nak2,
        ModeRefusal::NoFit => MessageType::Nak3,
    }
}

// An MS was heard: the verdict.
fn judge<'a>(tables: Tables<'a>, mode: Message<'a>, time: u64) -> Plan<'a>
    ensures { planned result ≡ judges (verdict (codes_in Field.Standard mode.entry.field.now (standard_at mode.entry.field.now)) (wishes_of tables.entry.wishes.now)) mode.entry.field.now time }
{
    match judge_mode(tables.wishes, mode.field, mode.standard) {
        Ok(()) => accept_mode(mode, time),
        Err(refusal) => refuse(nak_for(refusal), time),
    }
}

// With no far list, the first ready wish is sent.
fn propose_first<'a>(call: Call, tables: Tables<'a>) -> Plan<'a>
    ensures { planned result ≡ proposes (choice (standard_codes tables.entry.own.now) unheard tables.entry.wishes.now) call.settings no_offer tables.entry.wishes.now [] call.time }
{
    let far = FarOffer {
        v8: false,
        short_v8: false,
    };
    propose(first_ready(tables.wishes), false, call, far, None, tables)
}

// The mode that was proposed is agreed.
fn agree<'a>(call: Call) -> Plan<'a>
    ensures { planned result ≡ quiet 0 (Phase.Mode call.time (wish_of call.phase) (ack_of call.phase)) }
{
    let carried = call.phase.carried();
    tells(Ok(()), Phase::Mode(call.time, carried.wish, carried.ack))
}

// The phase that waits for the answer to a signal, from a time on: of two values, so it is no conversion of one.
fn waiting_for(signal: Signal, time: u64) -> Phase
    ensures { result ≡ waiting signal time }
{
    match signal {
        Signal::MrE => Phase::AskedE(time),
        Signal::MrD => Phase::AskedD(time),
        Signal::CrE => Phase::ListsE(time),
        Signal::CrD => Phase::ListsD(time),
    }
}

// What the table's act does; where the standard field of the message heard is matters only to an act that looks at one.
fn perform<'a>(
    act: Act,
    call: Call,
    tables: Tables<'a>,
    field: &'a [u8],
    standard: usize,
) -> Plan<'a>
    requires { needs_field act ≡ true → Standing field.now standard }
    ensures { planned result ≡ does act call.phase call.settings tables.entry.own.now tables.entry.wishes.now field.now call.time }
{
    let time = call.time;
    match act {
        Act::NoRow => tells(Err(StepRefusal::NotInTable), call.phase),
        Act::SendSignal(signal) => signals(signal, waiting_for(signal, time)),
        Act::CounterMrD => signals(Signal::MrD, Phase::Counter(time)),
        Act::Propose => propose_first(call, tables),
        Act::SendCl => send_list(MessageType::Cl, call, tables, Phase::Listed(time)),
        Act::SendClr => send_list(MessageType::Clr, call, tables, Phase::Traded(time)),
        Act::PairClr => send_list(MessageType::Clr, call, tables, Phase::Pair(time)),
        Act::Take(after) => take_list(after, call, tables, Message { field, standard }),
        Act::Judge => judge(tables, Message { field, standard }, time),
        Act::Agree => agree(call),
        Act::GiveUp => tells(Ok(()), Phase::Initial(time)),
        Act::SendNak1 => refuse(MessageType::Nak1, time),
    }
}

// What is to be done about an event that the gate let through.
pub(crate) fn decide<'a>(event: Event, call: Call, tables: Tables<'a>, field: &'a [u8]) -> Plan<'a>
    ensures { planned result ≡ sorted (sort_of event field.now) call.phase call.settings tables.entry.own.now tables.entry.wishes.now field.now call.time }
{
    match hear(event, field) {
        Some((heard, standard)) => {
            let carried = call.phase.carried();
            let act = act_of(carried.kind, call.settings, carried.ack, heard);
            perform(act, call, tables, field, standard)
        }
        None => tells(Err(StepRefusal::UnknownType), call.phase),
    }
}
