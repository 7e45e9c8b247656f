// Frames of V.8 bis 7.2: the frame reader and the frame writer. Bits are packed with bit 1 of each octet first.
#![tactic(auto)]

ghost use Rattle.std.specs.Prelude.{◌≡◌, Bool, true, List, [], ℕ, ◌+◌, ◌-◌, ◌*◌, ◌/◌, ◌%◌, ◌^◌, ◌≤◌, ◌<◌, length, set, drop};
ghost use Rattle.octets.specs.Bits.{bits, number, oct_before, packed};
ghost use Rattle.octets.specs.Lay.{put};
ghost use Rattle.octets.specs.Places.{last_place};
ghost use Rattle.fcs.specs.Division.{fcs};
ghost use Rattle.frame.specs.Stuffing.{flag, starts, stuffed, content_from};
ghost use Rattle.frame.specs.Frame.{flags, flags_at, content, frame, framed};
ghost use Rattle.frame.specs.Reader.{checked, alone, Reads};
ghost use Rattle.frame.specs.Pen.{low_bits, Holds};
ghost use Rattle.frame.specs.Zeros.{five_starts, Widens};
ghost use Rattle.frame.specs.Inner.{Stands};
ghost use Rattle.frame.specs.Limits.{most_information, most_bits, information_room, frame_room, most_opening, most_closing, most_content};
ghost use Rattle.frame.specs.Promises.{FrameReads, FrameWrites};

use fcs::fcs_of;
use octets::{bit_at, copy_front, is_one, octet_at};
use std::ops::ControlFlow;

const FLAG: u8 = 126;

const FEWEST_INFORMATION: usize = 1;

const MOST_INFORMATION: usize = 64;

const MOST_BITS: usize = 704;

const INFORMATION_ROOM: usize = 64;

const FRAME_ROOM: usize = 88;

const FEWEST_OPENING: usize = 2;

const MOST_OPENING: usize = 5;

const FEWEST_CLOSING: usize = 1;

const MOST_CLOSING: usize = 3;

const FEWEST_CONTENT: usize = 3;

const MOST_CONTENT: usize = 66;

// Why the frame reader gives no information octets.
// BadLent: the bit count is above 704 or more than the run has, or the output is under 64 octets.
#[derive(Clone, Copy, Debug, PartialEq, Eq)]
pub enum FrameReadRefusal {
    BadLent = 1,
    BadFlags = 2,
    SplitOctet = 3,
    TooShort = 4,
    TooLong = 5,
    WrongCheck = 6,
}

// Why the frame writer writes no frame. BadLent: the output is under 88 octets.
#[derive(Clone, Copy, Debug, PartialEq, Eq)]
pub enum FrameWriteRefusal {
    BadLent = 1,
    BadLength = 7,
    BadFlagCount = 8,
}

// The places of a word where five ones in a row begin; high is what stands above its four lowest bits.
fn five_starts(word: u32, high: u32) -> u32
    requires { high ≡ word / 16 }
    ensures { result ≡ five_starts word }
{
    let two = word & (word >> 1);
    let four = two & (two >> 2);
    four & high
}

// A word of twelve bits, and of as many more as zeros were put into it.
#[derive(Clone, Copy)]
struct Wide {
    word: u32,
    more: u32,
}

// A word with a zero behind every five ones in a row. What stands above the fifth one moves up: it is added once more.
fn with_zeros(start: u32, starts: u32) -> Wide
    requires { (start < 4096) × (starts ≡ five_starts start) }
    ensures { Widens start result }
{
    let mut word = start;
    let mut more = 0u32;
    let mut place = 0u32;
    let mut found = starts;
    // Each turn takes a mark and what stands below it, so the marks that are left are the loop's state.
    while found != 0 {
        let width = u32::trailing_zeros(found) + 5;
        found >>= width;
        place += width;
        word += (word >> place) << place;
        place += 1;
        more += 1;
    }
    Wide { word, more }
}

// The frame writer at work: the output, the place of its next octet, the bits of that octet that are not stored yet, and how many
// they are.
#[derive(Drop)]
struct Quill<'a> {
    out: &'a mut [u8],
    at: usize,
    word: u32,
    held: u32,
    ghost few: { held < 8 },
    ghost low: { word < 2 ^ held },
}

impl<'a> Quill<'a> {
    ghost use Rattle.frame.specs.Quill.{pen_of, Room, Puts, left_of, Marks};

    // Puts the width lowest bits of a value.
    fn put_low(&mut self, value: u32, width: u32)
        requires { (value < 2 ^ width) × (width ≤ 8) × Room self.old width }
        ensures { Puts (low_bits width value) self.old self.new }
    {
        let both = self.word + (value << self.held);
        let full = self.held + width;
        if full < 8 {
            self.word = both;
            self.held = full;
        } else {
            self.out[self.at] = (both % 256) as u8;
            self.at += 1;
            self.word = both / 256;
            self.held = full - 8;
        }
    }

    // Puts count flags.
    fn put_flags(&mut self, count: usize)
        requires { (count ≤ most_closing) × Room self.old (count * 8) }
        ensures { Puts (flags count) self.old self.new }
    {
        // A bound that is known beforehand keeps the machine code short.
        for k in 0..MOST_CLOSING {
            if k < count {
                self.put_low(FLAG as u32, 8);
            }
        }
    }

    // Puts a word but for its four lowest bits, which were put before. Gives the last four bits that were put, as a number.
    fn put_wide(&mut self, wide: Wide) -> u32
        requires { (wide.word < 2 ^ (12 + wide.more)) × (wide.more ≤ 2) × Room self.old (8 + wide.more) }
        ensures { Puts (low_bits (8 + wide.more) (wide.word / 16)) self.old self.new × (result ≡ wide.word / 2 ^ (8 + wide.more)) }
    {
        let Wide { word, more } = wide;
        self.put_low(word / 16 % 256, 8);
        self.put_low(word >> 12, more);
        word >> (8 + more)
    }

    // Puts the bits of an octet behind the last four that were put, with the zeros that they need. Where they need none they are put at
    // once. Gives the last four bits then.
    fn put_octet(&mut self, last: u32, octet: u8) -> u32
        requires { (last < 16) × Room self.old (length (stuffed (left_of last) (oct_before octet []))) }
        ensures { Marks (oct_before octet []) last self.old result self.new }
    {
        let word = (octet as u32) * 16 + last;
        let starts = five_starts(word, octet as u32);
        if starts != 0 {
            let wide = with_zeros(word, starts);
            return self.put_wide(wide);
        }
        self.put_low(octet as u32, 8);
        word / 256
    }

    // Puts the bits of a run of octets in the same way.
    fn put_octets(&mut self, start: u32, run: &[u8]) -> u32
        requires { (start < 16) × Room self.old (length (stuffed (left_of start) (bits run.now))) }
        ensures { Marks (bits run.now) start self.old result self.new }
    {
        let mut last = start;
        for &octet in run {
            last = self.put_octet(last, octet);
        }
        last
    }

    // Puts the information and its FCS.
    fn put_content(&mut self, info: &[u8], check: u16)
        requires { (check ≡ number (fcs (bits info.now))) × Room self.old (length (stuffed 4 (content info.now))) }
        ensures { Puts (stuffed 4 (content info.now)) self.old self.new }
    {
        let octets = check.to_le_bytes();
        let last = self.put_octets(0, info);
        let _ = self.put_octets(last, &octets);
    }

    // Stores the octet that the last bits did not fill; its unused bits are zero.
    fn put_last(&mut self)
        requires { Room self.old 0 }
        ensures same { self.new.out.ghost_name ≡ self.old.out.ghost_name }
        ensures whole { (o : List ℕ) (bs : List Bool) → length o ≡ length self.old.out.now → Holds o bs self.old.out.now (pen_of self.old) → self.new.out.now ≡ put (packed bs) o }
    {
        if self.held != 0 {
            self.out[self.at] = self.word as u8;
        }
    }
}

// The whole frame, where the information, the flag counts and the output are right. Gives its bit count.
fn put_frame(info: &[u8], opening: usize, closing: usize, out: &mut [u8]) -> usize
    requires { (length info.now ≤ most_information) × (opening ≤ most_opening) × (closing ≤ most_closing) × (frame_room ≤ length out.old) }
    ensures { (result ≡ length (frame info.now opening closing)) × (out.new ≡ put (packed (frame info.now opening closing)) out.old) }
{
    // Before anything is written: where C lends an output that overlaps the information, the FCS is that of what was lent, and a reader
    // finds out.
    let check = fcs_of(info);
    // The opening flags fill octets.
    out[..opening].fill(FLAG);
    let mut quill = Quill {
        out,
        at: opening,
        word: 0,
        held: 0,
    };
    quill.put_content(info, check);
    quill.put_flags(closing);
    let size = quill.at * 8 + (quill.held as usize);
    quill.put_last();
    size
}

// The frame writer: the information between flags, with its FCS. It gives the number of bits.
pub fn write_frame(
    info: &[u8],
    opening: usize,
    closing: usize,
    out: &mut [u8],
) -> Result<usize, FrameWriteRefusal>
    ensures { FrameWrites info.now opening closing out.old result out.new }
{
    if out.len() < FRAME_ROOM {
        return Err(FrameWriteRefusal::BadLent);
    }
    if !(FEWEST_INFORMATION..=MOST_INFORMATION).contains(&info.len()) {
        return Err(FrameWriteRefusal::BadLength);
    }
    if !(FEWEST_OPENING..=MOST_OPENING).contains(&opening) {
        return Err(FrameWriteRefusal::BadFlagCount);
    }
    if !(FEWEST_CLOSING..=MOST_CLOSING).contains(&closing) {
        return Err(FrameWriteRefusal::BadFlagCount);
    }
    Ok(put_frame(info, opening, closing, out))
}

// What reading found: how many bits of content, and the place where what follows begins.
#[derive(Clone, Copy)]
struct Found {
    bits: usize,
    next: usize,
}

// The content taken so far: how many bits, and those of them that do not fill an octet. The octets stand in plain, as many as it has room for.
// plain is lent beside it, and not held: the reader's stack is within 8 octets of what the C header tells.
#[derive(Clone, Copy)]
struct Kept {
    size: usize,
    rest: u32,
    ghost low: { rest < 2 ^ (size % 8) },
}

// Stores an octet where there is room for it.
fn store_octet(plain: &mut [u8], i: usize, octet: u8)
    ensures { plain.new ≡ set plain.old i octet }
{
    if i < plain.len() {
        plain[i] = octet;
    }
}

// The width lowest bits of an octet.
fn lowest(octet: u8, width: usize) -> u8
    requires { width ≤ 8 }
    ensures { result ≡ octet % 2 ^ width }
{
    ((octet as u16) % (1u16 << width)) as u8
}

// A sixth one in a row: the content before it, its place among the eight bits that are taken, and whether the zero before the
// six ones is one of the content.
#[derive(Clone, Copy)]
struct Sixth {
    kept: Kept,
    place: usize,
    real: bool,
}

impl Kept {
    ghost use Rattle.frame.specs.Content.{Able, Gains, MarksFives, TakenAs};

    // Nothing yet.
    fn none() -> Kept
        ensures { (result.size ≡ 0) × (result.rest ≡ 0) }
    {
        Kept { size: 0, rest: 0 }
    }

    // Adds the width lowest bits of a value to the content.
    fn keep_bits(self, plain: &mut [u8], value: u32, width: usize) -> Kept
        requires { (value < 2 ^ width) × (width ≤ 8) × Able self width }
        ensures { Gains (low_bits width value) plain.old self plain.new result }
    {
        let size = self.size;
        let rest = self.rest;
        let shift = size % 8;
        let both = rest + (value << shift);
        if shift + width < 8 {
            return Kept {
                size: size + width,
                rest: both,
            };
        }
        store_octet(plain, size / 8, (both % 256) as u8);
        Kept {
            size: size + width,
            rest: both / 256,
        }
    }

    // Takes the eight highest bits of a line, up to each one behind five ones and the rest. The bits before them tell what such a bit is.
    fn take_fives(self, plain: &mut [u8], line: u32, fives: u32) -> ControlFlow<Sixth, Kept>
        requires { Able self 8 × (fives < 256) × MarksFives 8 fives (line / 8192) }
        ensures { TakenAs (line / 8192) plain.old self plain.new result }
    {
        let mut kept = self;
        let mut word = line >> 13;
        let mut runs = fives;
        let mut place = 0usize;
        // As in `with_zeros`, the marks that are left are the loop's state.
        while runs != 0 {
            let zeros = u32::trailing_zeros(runs);
            let width = zeros as usize;
            let octet = (word >> 11) as u8;
            kept = kept.keep_bits(plain, lowest(octet, width) as u32, width);
            word = word >> zeros;
            place += width;
            if (word >> 11) % 2 == 1 {
                return ControlFlow::Break(Sixth {
                    kept,
                    place,
                    real: word % 32 != 31,
                });
            }
            word = word >> 1;
            runs = (runs >> zeros) >> 1;
            place += 1;
        }
        ControlFlow::Continue(kept.keep_bits(plain, word >> 11, 8 - place))
    }

    // Takes the eight highest bits of a line, at once where none of them stands behind five ones.
    fn take_octet(self, plain: &mut [u8], line: u32) -> ControlFlow<Sixth, Kept>
        requires { Able self 8 }
        ensures { TakenAs (line / 8192) plain.old self plain.new result }
    {
        let word = line >> 19;
        let fives = five_starts(word, word >> 4) % 256;
        if fives != 0 {
            return self.take_fives(plain, line, fives);
        }
        ControlFlow::Continue(self.keep_bits(plain, line >> 24, 8))
    }
}

// Checks the content of so many bits, which stand in plain where they are not too many, and gives out its information.
fn check_content(plain: &[u8], size: usize, out: &mut [u8]) -> Result<usize, FrameReadRefusal>
    requires { (length plain.now ≡ most_content) × (information_room ≤ length out.old) }
    ensures { (cs : List Bool) → length cs ≡ size → Stands size cs plain.now → Reads (checked cs) out.old result out.new }
{
    if size % 8 != 0 {
        return Err(FrameReadRefusal::SplitOctet);
    }
    let octets = size / 8;
    if octets < FEWEST_CONTENT {
        return Err(FrameReadRefusal::TooShort);
    }
    if MOST_CONTENT < octets {
        return Err(FrameReadRefusal::TooLong);
    }
    let n = octets - 2;
    let f = fcs_of(&plain[..n]);
    if f != u16::from_le_bytes([plain[n], plain[n + 1]]) {
        return Err(FrameReadRefusal::WrongCheck);
    }
    copy_front(plain, n, out);
    Ok(n)
}

// The 32 bits before a content, the last highest: a zero behind five ones, for it is none of the content.
const FIRST_LINE: u32 = 0x7C00_0000;

// A run of bits: the first count of those of its octets.
#[derive(Clone, Copy)]
struct Run<'a> {
    octets: &'a [u8],
    count: usize,
    ghost held: { count ≤ length octets.now * 8 },
    ghost few: { count ≤ most_bits },
}

impl<'a> Run<'a> {
    ghost use Rattle.frame.specs.Run.{seen};
    ghost use Rattle.frame.specs.Content.{Ends, Finds};

    // Whether a flag begins at a place.
    fn flag_at(self, at: usize) -> bool
        requires { at ≤ self.count }
        ensures { result ≡ starts flag (drop at (seen self.entry)) }
    {
        if self.count - at < 8 {
            return false;
        }
        octet_at(self.octets, at) == FLAG
    }

    // How many flags begin at a place, counted up to most.
    fn count_flags(self, start: usize, most: usize) -> usize
        requires { start ≤ self.count }
        ensures { result ≡ flags_at most (drop start (seen self.entry)) }
    {
        for k in 0..most {
            if !self.flag_at(start + k * 8) {
                return k;
            }
        }
        most
    }

    // The end of the content, where a sixth one in a row and the zero before the six ones belong to a flag: the zero and five of the
    // ones stand behind the content then. The eight bits that were taken begin here.
    fn end_content(self, here: usize, sixth: Sixth, plain: &mut [u8]) -> Option<Found>
        requires { (here + sixth.place < last_place) × (sixth.real ≡ true → (6 ≤ sixth.kept.size) × (6 ≤ here + sixth.place)) }
        ensures { Ends (drop (here + sixth.place + 1) (seen self.entry)) (here + sixth.place) plain.old sixth.kept sixth.real plain.new result }
    {
        let Sixth { kept, place, real } = sixth;
        let at = here + place;
        let behind = at + 1;
        if !real {
            return None;
        }
        if self.count <= behind {
            return None;
        }
        if is_one(bit_at(self.octets, behind)) {
            return None;
        }
        store_octet(plain, kept.size / 8, (kept.rest % 256) as u8);
        Some(Found {
            bits: kept.size - 6,
            next: at - 6,
        })
    }

    // Reads the content from a place on, without its inserted zeros, up to the closing flag. Bits behind the count are taken with the
    // last ones, but no flag ends at them.
    fn read_content(self, start: usize, plain: &mut [u8]) -> Option<Found>
        requires { start ≤ self.count }
        ensures { Finds (content_from 5 (drop start (seen self.entry))) (seen self.entry) self.entry.count plain.new result }
    {
        let mut kept = Kept::none();
        let mut line = FIRST_LINE;
        for here in (start..self.count).step_by(8) {
            let octet = octet_at(self.octets, here);
            line = (line >> 8) + ((octet as u32) << 24);
            match kept.take_octet(plain, line) {
                ControlFlow::Continue(next) => kept = next,
                ControlFlow::Break(sixth) => return self.end_content(here, sixth, plain),
            }
        }
        None
    }

    // Reads the frame at a place, and says where it stopped.
    fn read_framed(self, start: usize, plain: &mut [u8]) -> Option<Found>
        requires { start ≤ self.count }
        ensures { Finds (framed (drop start (seen self.entry))) (seen self.entry) self.entry.count plain.new result }
    {
        let opening = self.count_flags(start, MOST_OPENING + 1);
        if !(FEWEST_OPENING..=MOST_OPENING).contains(&opening) {
            return None;
        }
        let found = self.read_content(start + opening * 8, plain)?;
        let closing = self.count_flags(found.next, MOST_CLOSING);
        Some(Found {
            bits: found.bits,
            next: found.next + closing * 8,
        })
    }

    // The frame reader, where the output is right.
    fn read_whole(self, out: &mut [u8]) -> Result<usize, FrameReadRefusal>
        requires { information_room ≤ length out.old }
        ensures { Reads (alone (framed (seen self.entry))) out.old result out.new }
    {
        let mut plain = [0u8; MOST_CONTENT];
        let Some(found) = self.read_framed(0, &mut plain) else {
            return Err(FrameReadRefusal::BadFlags);
        };
        if found.next != self.count {
            return Err(FrameReadRefusal::BadFlags);
        }
        check_content(&plain, found.bits, out)
    }
}

// The frame reader: the information of the one frame that the first count bits of a run are. It gives the number of octets.
pub fn read_frame(run: &[u8], count: usize, out: &mut [u8]) -> Result<usize, FrameReadRefusal>
    ensures { FrameReads run.now count out.old result out.new }
{
    if MOST_BITS < count {
        return Err(FrameReadRefusal::BadLent);
    }
    if run.len() < (count + 7) / 8 {
        return Err(FrameReadRefusal::BadLent);
    }
    if out.len() < INFORMATION_ROOM {
        return Err(FrameReadRefusal::BadLent);
    }
    Run { octets: run, count }.read_whole(out)
}
