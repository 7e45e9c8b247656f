// The functions of `chip` as the chip's firmware links them: a static library, since a crate is a library or a static library, and not
// both. Each export calls the function of its name and promises what that does.
#![tactic(auto)]

ghost use Rattle.chip.specs.Answers.{ReadsFrame, WritesFrame, ReadsMessage};

use chip::{FrameReadAnswer, FrameWriteAnswer, MessageAnswer};

// The frame reader: the information of the frame in the first bits of the run.
#[unsafe(no_mangle)]
pub extern "C" fn kamvezhor_read_frame(run: &[u8], bits: usize, out: &mut [u8]) -> FrameReadAnswer
    ensures { ReadsFrame run.now bits out.old result out.new }
{
    chip::kamvezhor_read_frame(run, bits, out)
}

// The frame writer: a frame of the information with so many opening and closing flags.
#[unsafe(no_mangle)]
pub extern "C" fn kamvezhor_write_frame(
    information: &[u8],
    opening: usize,
    closing: usize,
    out: &mut [u8],
) -> FrameWriteAnswer
    ensures { WritesFrame information.now opening closing out.old result out.new }
{
    chip::kamvezhor_write_frame(information, opening, closing, out)
}

// The message reader: it fills the front of the list with the message's codes, in ascending order, four octets to each, lowest first.
#[unsafe(no_mangle)]
pub extern "C" fn kamvezhor_read_message(message: &[u8], list: &mut [u8]) -> MessageAnswer
    ensures { ReadsMessage message.now list.old result list.new }
{
    chip::kamvezhor_read_message(message, list)
}
