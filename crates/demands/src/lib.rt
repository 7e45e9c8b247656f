// The three demands as theorems over what the contracts of the other crates cite, the proved bench positions in one list, and one
// operation that sends a list there and back: its contract says of the four operations that it calls that the list comes back.
#![tactic(auto)]

ghost use Rattle.std.specs.Prelude.{◌≡◌, List, ℕ};
ghost use Rattle.frame.specs.Limits.{information_room};
ghost use Rattle.frame.specs.Reader.{information, read_frame};
ghost use Rattle.demands.specs.Returning.{ReturnsList};
ghost use Rattle.demands.specs.Stages.{ReadsBack, FramesBack};

use frame::{read_frame, write_frame};
use message::{Message, MessageReadRefusal, read_message};
use writer::write_message;

// How many flags a frame begins and ends with.
#[derive(Clone, Copy)]
pub struct Flags {
    pub opening: usize,
    pub closing: usize,
}

// Why a trip ends before anything is read: no message was written, or it got no frame.
#[derive(Clone, Copy, Debug, PartialEq, Eq)]
pub enum TripRefusal {
    Unwritten,
    Unframed,
}

// What came of a trip: what the message reader answered at its end, or why it ended before.
type Trip = Result<Result<Message, MessageReadRefusal>, TripRefusal>;

// Reads a frame, and the message in it.
fn read_back(bits: &[u8], count: usize, back: &mut [u32]) -> Trip
    ensures { (os : List ℕ) → read_frame bits.now count information_room ≡ information os → ReadsBack os back.old result back.new }
{
    let mut found = [0u8; 64];
    // no frame that was written is refused
    let size = read_frame(bits, count, &mut found).map_err(|_| TripRefusal::Unframed)?;
    Ok(read_message(&found[0..size], back))
}

// Frames a message, and reads it again.
fn framed_back(message: &[u8], flags: Flags, back: &mut [u32]) -> Trip
    ensures { FramesBack message.now flags back.old result back.new }
{
    let mut bits = [0u8; 88];
    let written = write_frame(message, flags.opening, flags.closing, &mut bits);
    let count = written.map_err(|_| TripRefusal::Unframed)?;
    read_back(&bits, count, back)
}

// Writes a list as a message, frames that, and reads the frame and the message again.
pub fn there_and_back(
    kind: u8,
    revision: u8,
    list: &[u32],
    ns: &[u8],
    flags: Flags,
    back: &mut [u32],
) -> Result<Result<Message, MessageReadRefusal>, TripRefusal>
    ensures { ReturnsList kind revision list.now ns.now flags back.old result back.new }
{
    let mut message = [0u8; 64];
    let written = write_message(kind, revision, list, ns, &mut message);
    let size = written.map_err(|_| TripRefusal::Unwritten)?;
    framed_back(&message[0..size], flags, back)
}
