// What the chip's firmware calls from C (RULES, Scope 5: the frame reader, the frame writer and the message reader): three
// functions on numbers and slices, each with the promise of the operation that it passes on. Crate `chip_c` exports them.
#![tactic(auto)]

ghost use Rattle.chip.specs.Answers.{ReadsFrame, WritesFrame, ReadsMessage};

use frame::{read_frame, write_frame};
use message::read_octets;

// What the frame reader answers: the rules' number, 0 for success, and the number of octets read. C has no Result, here and below, so both
// stand beside each other.
#[repr(C)]
#[derive(Clone, Copy)]
pub struct FrameReadAnswer {
    pub refusal: u32,
    pub octets: u32,
}

// What the frame writer answers: the rules' number, 0 for success, and the number of bits written.
#[repr(C)]
#[derive(Clone, Copy)]
pub struct FrameWriteAnswer {
    pub refusal: u32,
    pub bits: u32,
}

// What the message reader answers: the rules' number, 0 for success, and then the type, the revision, the number of codes, and
// where NS lies.
#[repr(C)]
#[derive(Clone, Copy)]
pub struct MessageAnswer {
    pub refusal: u32,
    pub kind: u32,
    pub revision: u32,
    pub codes: u32,
    pub ns_at: u32,
    pub ns_length: u32,
}

// The frame reader: the information of the frame in the first bits of the run.
pub fn kamvezhor_read_frame(run: &[u8], bits: usize, out: &mut [u8]) -> FrameReadAnswer
    ensures { ReadsFrame run.now bits out.old result out.new }
{
    match read_frame(run, bits, out) {
        Ok(n) => FrameReadAnswer {
            refusal: 0,
            octets: n as u32,
        },
        Err(unread) => FrameReadAnswer {
            refusal: unread as u32,
            octets: 0,
        },
    }
}

// The frame writer: a frame of the information with so many opening and closing flags. It stays a function behind its export, which
// would otherwise take more ROM than the C header tells.
#[inline(never)]
pub fn kamvezhor_write_frame(
    information: &[u8],
    opening: usize,
    closing: usize,
    out: &mut [u8],
) -> FrameWriteAnswer
    ensures { WritesFrame information.now opening closing out.old result out.new }
{
    match write_frame(information, opening, closing, out) {
        Ok(n) => FrameWriteAnswer {
            refusal: 0,
            bits: n as u32,
        },
        Err(unwritten) => FrameWriteAnswer {
            refusal: unwritten as u32,
            bits: 0,
        },
    }
}

// The message reader: it fills the front of the list with the message's codes, in ascending order, four octets to each, lowest first.
pub fn kamvezhor_read_message(message: &[u8], list: &mut [u8]) -> MessageAnswer
    ensures { ReadsMessage message.now list.old result list.new }
{
    match read_octets(message, list) {
        Ok(m) => MessageAnswer {
            refusal: 0,
            kind: m.kind as u32,
            revision: m.revision as u32,
            codes: m.count as u32,
            ns_at: m.ns.at as u32,
            ns_length: m.ns.length as u32,
        },
        Err(refused) => MessageAnswer {
            refusal: refused as u32,
            kind: 0,
            revision: 0,
            codes: 0,
            ns_at: 0,
            ns_length: 0,
        },
    }
}
