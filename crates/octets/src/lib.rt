// What every layer needs of octets: the bits of a run, a cursor over them, eight bits as a number, and copying.
#![tactic(auto)]

ghost use Rattle.octets.specs.Promises.{TellsBit, TellsOne, TellsPlaceAfter, IsReader, TellsNextBit, IsMovedOn, TellsBitAfter, TellsOctetOrZero, TellsOctet, CopiesFront};

// The highest place that a usize can name.
const LAST_PLACE: usize = usize::MAX;

// The bit at a place of a run, counted from 0 with bit 1 of the first octet; behind the end there is none.
pub fn bit_at(run: &[u8], at: usize) -> Option<bool>
    ensures { TellsBit run.now at result }
{
    let octet = *run.get(at / 8)?;
    Some((octet >> (at % 8)) % 2 == 1)
}

// Whether a bit is a one; the end is none.
pub fn is_one(bit: Option<bool>) -> bool
    ensures { TellsOne bit result }
{
    bit.unwrap_or(false)
}

// The place after a bit of a run.
pub fn place_after(run: &[u8], at: usize) -> usize
    ensures { TellsPlaceAfter run.now at result }
{
    if at < LAST_PLACE && at / 8 < run.len() {
        return at + 1;
    }
    at
}

// The lent run and the place of its next bit together.
#[derive(Clone, Copy)]
pub struct BitReader<'a> {
    pub run: &'a [u8],
    pub at: usize,
}

impl<'a> BitReader<'a> {
    // A reader of a run, from a place on.
    pub fn new(run: &'a [u8], at: usize) -> BitReader<'a>
        ensures { IsReader run.entry at result }
    {
        BitReader { run, at }
    }

    // The next bit of a reader.
    pub fn next_bit(self) -> Option<bool>
        ensures { TellsNextBit self.entry result }
    {
        bit_at(self.run, self.at)
    }

    // The reader behind its next bit.
    pub fn moved_on(self) -> BitReader<'a>
        ensures { IsMovedOn self.entry result }
    {
        BitReader {
            run: self.run,
            at: place_after(self.run, self.at),
        }
    }
}

// The bit behind a place of a run, by the cursor; whoever calls this needs to know nothing of it.
pub fn bit_after(run: &[u8], at: usize) -> Option<bool>
    ensures { TellsBitAfter run.now at result }
{
    BitReader::new(run, at).moved_on().next_bit()
}

// The octet of a run at a place, or 0 behind its end.
pub fn octet_or_zero(run: &[u8], i: usize) -> u8
    ensures { TellsOctetOrZero run.now i result }
{
    run.get(i).copied().unwrap_or(0)
}

// Eight bits of a run from a place on, as an octet; zeros behind the end.
pub fn octet_at(run: &[u8], at: usize) -> u8
    ensures { TellsOctet run.now at result }
{
    let i = at / 8;
    let low = octet_or_zero(run, i) as u16;
    let high = octet_or_zero(run, i + 1) as u16;
    (((high * 256 + low) >> (at % 8)) % 256) as u8
}

// Copies the first octets, count of them or as many as there are and fit.
pub fn copy_front(from: &[u8], count: usize, to: &mut [u8])
    ensures { CopiesFront from.now count to.old to.new }
{
    let n = count.min(from.len()).min(to.len());
    // By a loop: of `copy_from_slice` the back end makes a call of memmove in a step, which a board need not have.
    for j in 0..n {
        to[j] = from[j];
    }
}
