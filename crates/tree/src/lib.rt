// The parameter tree of one field (V.8 bis 8.2): whether it is well-formed, and the places of its blocks.
#![tactic(auto)]

ghost use Rattle.std.specs.Prelude.{ℕ, List, ◌+◌, ◌-◌, ◌*◌, ◌^◌, ◌≤◌, ◌<◌, ◌++◌, length, ◌≡◌};
ghost use Rattle.std.specs.Int.Count.{ones};
ghost use Rattle.std.specs.Iterator.{item_count};
ghost use Rattle.tree.specs.Levels.{width_of, mark_of};
ghost use Rattle.tree.specs.Block.{set_bits, block_numbers, behind, announced};
ghost use Rattle.tree.specs.Codes.{subs_behind, group_behind, rest_behind};
ghost use Rattle.tree.specs.Form.{told, form_at, group_form, rest_form};
ghost use Rattle.tree.specs.Wide.{octet_fits, low_fits, top_fits};
ghost use Rattle.tree.specs.Promises.{TellsWidth, TellsMark, TellsPositions, GivesPositions, TellsBit8, MarksLast, TellsFine, TellsForm, TellsEnd, TellsBase, TellsSpar, TellsTopBehind, TellsBlockBehind, TellsGroupBehind, TellsFits};

use octets::octet_or_zero;
use std::marker::Model;

// The octets of the longest message.
pub const MOST_OCTETS: usize = 64;

// What one more of t, of s and of f counts in a code f.s.t.n.
pub const OF_T: u32 = 512;

pub const OF_S: u32 = OF_T * 512;

pub const OF_F: u32 = OF_S * 512;

// What the codes of I and of S stand above.
pub const IDENTIFICATION: u32 = OF_F;

pub const STANDARD: u32 = OF_F * 2;

// The highest position that a code can tell.
const MOST_POSITION: usize = 511;

// So many octets of a block have no higher one: below level 1, where it is the first of the next octet, and at level 1.
const LOW_OCTETS: usize = MOST_POSITION / 6;

const TOP_OCTETS: usize = MOST_POSITION / 7;

// The two fields that are trees.
#[derive(Clone, Copy)]
pub enum Field {
    Identification,
    Standard,
}

// The blocks of level 1, with 7 parameters to an octet and ended by bit 8, and those below, with 6 and ended by bit 7.
#[derive(Clone, Copy, Debug, PartialEq, Eq)]
pub enum Level {
    Top,
    Low,
}

impl Level {
    // How many parameters such a block has to an octet.
    pub fn width(self) -> u32
        ensures { TellsWidth self result }
    {
        match self {
            Level::Top => 7,
            Level::Low => 6,
        }
    }

    // What an octet is at least that ends such a block.
    pub fn mark(self) -> u8
        ensures { TellsMark self result }
    {
        match self {
            Level::Top => 128,
            Level::Low => 64,
        }
    }
}

// The first rule that is broken, and the place of the octet, from 0: the octets end early, bit 7 or 8 stands against the rules, octets
// are left over, a length is out of range.
#[derive(Clone, Copy, Debug, PartialEq, Eq)]
pub enum Fault {
    Early(usize),
    Wrong(usize),
    Left(usize),
    BadLength(usize),
}

// The place behind the block at a place. The octet at hand is asked last, which leaves the back end the shortest loop: five instructions
// to an octet, where one over the places takes six or seven.
fn behind(s: &[u8], level: Level, e: usize) -> usize
    ensures { result ≡ behind (mark_of level) s.now e }
{
    let mark = level.mark();
    let mut octet = 0u8;
    let mut at = e;
    while octet < mark {
        if s.len() <= at {
            return at;
        }
        octet = s[at];
        at += 1;
    }
    at
}

// The same, if the block is well-formed: its last octet has the delimiting bit, and not bit 8 alone. It has a loop of its own, since a
// second look at the last octet would cost a field a tenth more instructions.
fn block_at(s: &[u8], level: Level, e: usize) -> Result<usize, Fault>
    ensures { result ≡ told (form_at (mark_of level) s.now e) (behind (mark_of level) s.now e) }
{
    let mark = level.mark();
    let mut at = e;
    for i in e..s.len() {
        let o = s[i];
        at = i + 1;
        if mark <= o {
            return if (o / mark) % 2 == 1 {
                Ok(at)
            } else {
                Err(Fault::Wrong(i))
            };
        }
    }
    Err(Fault::Early(at))
}

// The positions that are set in a block and left to give: those in bits, behind the ones passed, and those of the octets that are left,
// which are numbered behind the next ones.
#[derive(Drop)]
pub struct SetPositions<'a> {
    rest: &'a [u8],
    level: Level,
    bits: u8,
    passed: u32,
    next: u32,
}

impl<'a> Model for SetPositions<'a> {
    ghost Value = { List ℕ };

    ghost view = { λ p. set_bits (p.next - p.passed) p.passed p.bits ++ block_numbers (width_of p.level) (mark_of p.level) p.next p.rest.now };

    ghost invariant = { λ p. (p.passed ≤ p.next) × (p.next ≤ p.passed + 7) × (p.bits < 2 ^ (p.next - p.passed)) × (p.next + 7 * length p.rest.now ≤ 448) };
}

impl<'a> Iterator for SetPositions<'a> {
    type Item = u32;

    ghost next_gives = { GivesPositions };

    ghost remaining = { item_count (λ s. s) };

    fn next(&mut self) -> Option<u32> {
        while self.bits == 0 {
            let (o, others) = self.rest.split_first()?;
            let m = self.level.mark();
            self.bits = *o % m;
            self.passed = self.next;
            self.next += self.level.width();
            self.rest = if *o < m { others } else { &[] };
        }
        let zeros = self.bits.trailing_zeros();
        self.bits = self.bits >> zeros >> 1;
        self.passed += zeros + 1;
        Some(self.passed)
    }
}

// The positions that are set in the block at a place, in ascending order; more octets than a message has give none.
pub fn positions<'a>(s: &'a [u8], at: usize, level: Level) -> SetPositions<'a>
    ensures { TellsPositions s.now at level result }
{
    let read: &[u8] = if s.len() <= MOST_OCTETS { s } else { &[] };
    SetPositions {
        rest: &read[usize::min(at, read.len())..],
        level,
        bits: 0,
        passed: 0,
        next: 0,
    }
}

// Bit 8 of the octet before a place; behind the end it is not set.
pub fn bit8(s: &[u8], e: usize) -> bool
    ensures { TellsBit8 s.now e result }
{
    128 <= octet_or_zero(s, e.saturating_sub(1))
}

// Sets bit 8 of the octet before a place, if there is one.
pub fn mark_last(out: &mut [u8], e: usize)
    ensures { MarksLast out.old e out.new }
{
    if e <= out.len() {
        if 0 < e {
            let i = e - 1;
            out[i] = out[i] % 128 + 128;
        }
    }
}

// Whether no rule is broken.
pub fn is_fine(form: Result<(), Fault>) -> bool
    ensures { TellsFine form result }
{
    form.is_ok()
}

// Bit 8 of the octet before a place within the octets, which needs no test of the bounds.
fn is_ended(s: &[u8], e: usize) -> bool
    requires { (0 < e) × (e ≤ length s.now) }
    ensures { TellsBit8 s.now e result }
{
    128 <= s[e - 1]
}

// The octets of a message.
#[derive(Clone, Copy)]
struct Octets<'a> {
    run: &'a [u8],
    ghost few: { length run.now ≤ 64 },
}

impl<'a> Octets<'a> {
    // How many blocks the SPar block at a place announces: the ones among the parameter bits of its octets. They are counted, which takes a
    // quarter fewer instructions for a field than going over its positions.
    fn ones_in(self, level: Level, e: usize) -> usize
        ensures { result ≡ announced (width_of level) (mark_of level) self.entry.run.now e }
    {
        let mark = level.mark();
        let mut ones = 0usize;
        for i in e..self.run.len() {
            let o = self.run[i];
            ones += (o % mark).count_ones() as usize;
            if mark <= o {
                return ones;
            }
        }
        ones
    }

    // The place behind what stands in a Par(2) block behind its NPar(2), which ends before a place: bit 8 stands in the very last octet
    // and in no other.
    fn group_at(self, e: usize) -> Result<usize, Fault>
        requires { (0 < e) × (e ≤ length self.run.now) }
        ensures { result ≡ told (group_form self.entry.run.now e) (group_behind self.entry.run.now e) }
    {
        let s = self.run;
        if is_ended(s, e) {
            return Ok(e);
        }
        let mut at = block_at(s, Level::Low, e)?;
        let subs = self.ones_in(Level::Low, e);
        for _done in 0..subs {
            if is_ended(s, at) {
                return Err(Fault::Wrong(at - 1));
            }
            at = block_at(s, Level::Low, at)?;
        }
        if is_ended(s, at) {
            return Ok(at);
        }
        Err(Fault::Wrong(at - 1))
    }

    // The place behind SPar(1) at a place, and the Par(2) blocks that it announces.
    fn rest_at(self, e: usize) -> Result<usize, Fault>
        ensures { result ≡ told (rest_form self.entry.run.now e) (rest_behind self.entry.run.now e) }
    {
        let mut at = block_at(self.run, Level::Top, e)?;
        let pars = self.ones_in(Level::Top, e);
        for _done in 0..pars {
            let next = block_at(self.run, Level::Low, at)?;
            at = self.group_at(next)?;
        }
        Ok(at)
    }
}

// The place behind the field at a place, if that is well-formed.
pub fn field_form(s: &[u8], at: usize) -> Result<usize, Fault>
    ensures { TellsForm s.now at result }
{
    if MOST_OCTETS < s.len() {
        return Err(Fault::Left(MOST_OCTETS));
    }
    let rest = block_at(s, Level::Top, at)?;
    Octets { run: s }.rest_at(rest)
}

// The place behind the field at a place, and none where that is not well-formed.
pub fn field_end(s: &[u8], at: usize) -> Option<usize>
    ensures { TellsEnd s.now at result }
{
    field_form(s, at).ok()
}

// What the codes of a field stand above.
pub fn base_of(field: Field) -> u32
    ensures { TellsBase field result }
{
    match field {
        Field::Identification => IDENTIFICATION,
        Field::Standard => STANDARD,
    }
}

// Whether the standard field at a place has an SPar(1): whether its SPar(1) block announces anything.
pub fn has_spar(s: &[u8], at: usize) -> bool
    ensures { TellsSpar s.now at result }
{
    // Asked first, so that however many octets there are, no more than a message has are looked at.
    if MOST_OCTETS < s.len() {
        return false;
    }
    positions(s, top_behind(s, at), Level::Top).next().is_some()
}

// The place behind the block at a place, at level 1.
pub fn top_behind(s: &[u8], e: usize) -> usize
    ensures { TellsTopBehind s.now e result }
{
    behind(s, Level::Top, e)
}

// The place behind the block at a place, below level 1.
pub fn block_behind(s: &[u8], e: usize) -> usize
    ensures { TellsBlockBehind s.now e result }
{
    behind(s, Level::Low, e)
}

// The place behind blocks below level 1, count of them.
fn blocks_behind(s: &[u8], count: u32, start: usize) -> usize
    ensures { result ≡ subs_behind count s.now start }
{
    let mut at = start;
    for _done in 0..count {
        at = block_behind(s, at);
    }
    at
}

// The place behind the NPar(3) blocks from a place on that the SPar(2) block at another announces.
fn subs_behind(s: &[u8], e: usize, start: usize) -> usize
    ensures { result ≡ subs_behind (announced 6 64 s.now e) s.now start }
{
    let mut at = start;
    for i in e..s.len() {
        let o = s[i];
        at = blocks_behind(s, (o % 64).count_ones(), at);
        if 64 <= o {
            return at;
        }
    }
    at
}

// The place behind what stands in a Par(2) block behind its NPar(2), which ends before a place.
pub fn group_behind(s: &[u8], e: usize) -> usize
    ensures { TellsGroupBehind s.now e result }
{
    if bit8(s, e) {
        return e;
    }
    subs_behind(s, e, block_behind(s, e))
}

// Whether no position above the highest stands in an octet of a block below level 1, behind others of it.
fn octet_fits(before: usize, o: u8) -> bool
    ensures { result ≡ octet_fits before o }
{
    if before < LOW_OCTETS {
        return true;
    }
    if o < 64 {
        return false;
    }
    o % 64 <= 1
}

// Whether none stands in any block below level 1, wherever it begins.
fn low_fits(s: &[u8]) -> bool
    ensures { result ≡ low_fits 0 s.now }
{
    let mut before = 0usize;
    for o in s {
        if !octet_fits(before, *o) {
            return false;
        }
        before = if *o < 64 { before + 1 } else { 0 };
    }
    true
}

// Whether none may stand in the block of level 1 at a place.
fn top_fits(s: &[u8], e: usize) -> bool
    ensures { result ≡ top_fits s.now e }
{
    top_behind(s, e) - e <= TOP_OCTETS
}

// Whether none may stand in the field at a place. All octets are looked at, so a field is best lent alone.
pub fn field_fits(s: &[u8], at: usize) -> bool
    ensures { TellsFits s.now at result }
{
    if !top_fits(s, at) {
        return false;
    }
    if !top_fits(s, top_behind(s, at)) {
        return false;
    }
    low_fits(s)
}
