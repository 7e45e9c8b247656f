// Striking (RULES, Striking): a field is rewritten block by block with what is kept of it, so that no list of numbers is
// ever held; and a message is struck.
#![tactic(auto)]

ghost use Rattle.std.specs.Prelude.{◌≡◌, ◌+◌, ◌/◌, ◌%◌, ◌^◌, ◌≤◌, ◌<◌, true, false, length, drop, MatchOption};
ghost use Rattle.std.specs.Int.Bits.{bit_and};
ghost use Rattle.std.proofs.lemmas.List.Edits.{sets};
ghost use Rattle.octets.specs.Lay.{put};
ghost use Rattle.octets.specs.Places.{pick};
ghost use Rattle.tree.specs.Levels.{width_of, mark_of};
ghost use Rattle.tree.specs.Block.{numbers, behind};
ghost use Rattle.tree.specs.Codes.{field_base, group_behind, pars_behind, subs_behind, field_behind};
ghost use Rattle.tree.specs.Fields.{base_of, most_octets};
ghost use Rattle.tree.specs.Form.{form_at, group_form, pars_form, field_form, Fine};
ghost use Rattle.message.specs.Kinds.{has_fields, type_number};
ghost use Rattle.message.specs.Promises.{Checks};
ghost use Rattle.meaning.specs.Writing.{is_empty};
ghost use Rattle.names.specs.Inner.{kept_place};
ghost use Rattle.strike.specs.Rewriting.{Rewrites};
ghost use Rattle.strike.specs.Striking.{struck_form, Strikes};
ghost use Rattle.strike.specs.Promises.{TellsRefusal};
ghost use Rattle.strike.specs.Inner.{names_at, names_step, sieved, block_kept, SubsFine, sub_kept, subs_kept, group_kept, whole_par, par_kept, pars_kept, field_kept, standard_keep, Puts};

use message::{MessageFault, MessageType, Parts, check_message};
use names::{Keep, npar_places, spar_places};
use octets::octet_or_zero;
use tree::{
    Field, Level, MOST_OCTETS, OF_S, OF_T, base_of, block_behind, field_end, positions, top_behind,
};

// How far reading and writing have come. It goes in and out by value: the output is lent to each function for its time alone.
#[derive(Clone, Copy)]
struct Spot {
    from: usize,
    to: usize,
}

// What is kept of the positions of an SPar block: the code that they stand under, and which of them are kept.
#[derive(Clone, Copy)]
struct Branch {
    base: u32,
    places: Option<u32>,
    ghost low: { base ≤ field_base 3 },
}

// Why a message is not struck, by the rules' numbers. BadLent: the output is under 64 octets.
#[derive(Clone, Copy, Debug, PartialEq, Eq)]
pub enum StrikeRefusal {
    BadLent = 1,
    BadSize = 2,
    UnknownType = 3,
    Malformed = 4,
}

impl From<MessageFault> for StrikeRefusal {
    ghost from_gives = { TellsRefusal };

    fn from(fault: MessageFault) -> Self {
        match fault {
            MessageFault::BadSize => StrikeRefusal::BadSize,
            MessageFault::UnknownType => StrikeRefusal::UnknownType,
            MessageFault::Malformed => StrikeRefusal::Malformed,
        }
    }
}

// Whether a position is kept; behind the 32nd none has a bit. A match: of a closure in `is_none_or` the
// proof sees what one function called there promises, and not these steps: that the answer is the bit would be left to show.
fn is_kept(places: Option<u32>, q: u32) -> bool
    requires { 0 < q }
    ensures { result ≡ kept_place places q }
{
    match places {
        None => true,
        Some(bits) => bits.checked_shr(q - 1).unwrap_or(0) % 2 == 1,
    }
}

// What of the octets of a block is kept, from one of them on: the names, as one number, and how many of them an octet has. Where all is
// kept, the names are seven ones that stay: 127 and a step of 0, so that one loop serves both.
// A level and places go from function to function without it: it moves on octet by octet, and each pass over a block makes it anew.
#[derive(Clone, Copy)]
struct Sieve {
    level: Level,
    names: u32,
    step: u32,
}

impl Sieve {
    // From the first octet on.
    fn new(level: Level, places: Option<u32>) -> Self
        ensures { (result.level ≡ level) × (result.names ≡ names_at places 0) × (result.step ≡ names_step places (width_of level)) }
    {
        match places {
            None => Sieve {
                level,
                names: 127,
                step: 0,
            },
            Some(names) => Sieve {
                level,
                names,
                step: level.width(),
            },
        }
    }

    // The bits that are kept of the octet at hand.
    fn keep(self, octet: u8) -> u8
        ensures { result ≡ bit_and (octet % mark_of self.level) (self.names % mark_of self.level) }
    {
        let m = self.level.mark();
        (octet % m) & ((self.names % (m as u32)) as u8)
    }

    // From the next octet on.
    fn next(self) -> Self
        requires { self.step ≤ 7 }
        ensures { (result.level ≡ self.level) × (result.names ≡ self.names / 2 ^ self.step) × (result.step ≡ self.step) }
    {
        Sieve {
            names: self.names >> self.step,
            ..self
        }
    }
}

// The minimal block of what is kept: how many octets it has; and the place behind the block.
#[derive(Clone, Copy)]
struct Extent {
    count: usize,
    end: usize,
}

// The octets that a field is read from, no more than a message has, and what is kept of it.
#[derive(Clone, Copy)]
struct Source<'a> {
    s: &'a [u8],
    keep: Keep,
    ghost short: { length s.now ≤ 64 },
}

impl<'a> Source<'a> {
    // How many octets of the block at a place are kept: those up to the last with something set, and one where nothing is.
    fn block_extent(self, e: usize, level: Level, places: Option<u32>) -> Extent
        requires { e ≤ length self.s.now }
        ensures { (result.count ≡ length (block_kept (width_of level) (mark_of level) places self.entry.s.now e)) × (result.end ≡ behind (mark_of level) self.entry.s.now e) }
    {
        let mark = level.mark();
        let mut sieve = Sieve::new(level, places);
        let mut count = 1usize;
        for i in e..self.s.len() {
            let octet = self.s[i];
            if sieve.keep(octet) != 0 {
                count = i + 1 - e;
            }
            if mark <= octet {
                return Extent { count, end: i + 1 };
            }
            sieve = sieve.next();
        }
        Extent {
            count,
            end: self.s.len(),
        }
    }

    // The minimal block of what is kept of the block at a place, if anything is. Where no position is, as with SPar(2) under most SPar(1),
    // the block need not be looked at.
    fn some_extent(self, e: usize, level: Level, places: Option<u32>) -> Option<Extent>
        requires { e ≤ length self.s.now }
        ensures { MatchOption result (is_empty (sieved (width_of level) (mark_of level) places self.entry.s.now e) ≡ true) (λ x. (is_empty (sieved (width_of level) (mark_of level) places self.entry.s.now e) ≡ false) × (x.count ≡ length (block_kept (width_of level) (mark_of level) places self.entry.s.now e)) × (x.end ≡ behind (mark_of level) self.entry.s.now e)) }
    {
        if places == Some(0) {
            return None;
        }
        let extent = self.block_extent(e, level, places);
        if 1 < extent.count {
            return Some(extent);
        }
        let nothing = Sieve::new(level, places).keep(octet_or_zero(self.s, e)) == 0;
        if nothing {
            return None;
        }
        Some(extent)
    }

    // Puts the minimal block, whose extent is known, of what is kept of the block at the spot.
    fn put_extent(
        self,
        extent: Extent,
        level: Level,
        places: Option<u32>,
        spot: Spot,
        out: &mut [u8],
    ) -> Spot
        requires { (extent.count ≡ length (block_kept (width_of level) (mark_of level) places self.s.now spot.from)) × (extent.end ≡ behind (mark_of level) self.s.now spot.from) × (spot.from < length self.s.now) × (spot.to + length (block_kept (width_of level) (mark_of level) places self.s.now spot.from) ≤ length out.old) }
        ensures { Puts (block_kept (width_of level) (mark_of level) places self.entry.s.now spot.from) (behind (mark_of level) self.entry.s.now spot.from) out.old spot.to out.new result }
    {
        let e = spot.from;
        let to = spot.to;
        let last = extent.count - 1;
        let mut sieve = Sieve::new(level, places);
        for i in 0..last {
            out[to + i] = sieve.keep(self.s[e + i]);
            sieve = sieve.next();
        }
        out[to + last] = sieve.keep(self.s[e + last]) + level.mark();
        Spot {
            from: extent.end,
            to: to + last + 1,
        }
    }

    // Puts the minimal block of what is kept of the block at the spot.
    fn put_block(self, level: Level, places: Option<u32>, spot: Spot, out: &mut [u8]) -> Spot
        requires { (spot.from < length self.s.now) × (spot.to + length (block_kept (width_of level) (mark_of level) places self.s.now spot.from) ≤ length out.old) }
        ensures { Puts (block_kept (width_of level) (mark_of level) places self.entry.s.now spot.from) (behind (mark_of level) self.entry.s.now spot.from) out.old spot.to out.new result }
    {
        let extent = self.block_extent(spot.from, level, places);
        self.put_extent(extent, level, places, spot, out)
    }

    // Puts the NPar(3) block at the spot, if the SPar(2) position it belongs to is kept; else passes it over.
    fn put_sub(self, branch: Branch, t: u32, spot: Spot, out: &mut [u8]) -> Spot
        requires { (form_at 64 self.s.now spot.from ≡ Fine) × (0 < t) × (t ≤ 511) × (spot.to + length (sub_kept self.keep branch.base branch.places t self.s.now spot.from) ≤ length out.old) }
        ensures { Puts (sub_kept self.entry.keep branch.base branch.places t self.entry.s.now spot.from) (behind 64 self.entry.s.now spot.from) out.old spot.to out.new result }
    {
        if is_kept(branch.places, t) {
            let npars = npar_places(self.keep, branch.base + t * OF_T);
            return self.put_block(Level::Low, npars, spot, out);
        }
        Spot {
            from: block_behind(self.s, spot.from),
            ..spot
        }
    }

    // Puts the NPar(3) blocks, from the spot on, of the SPar(2) block at a place.
    fn put_subs(self, branch: Branch, e: usize, start: Spot, out: &mut [u8]) -> Spot
        requires { (e ≤ length self.s.now) × (start.from ≤ length self.s.now) × (SubsFine (length (numbers 6 64 0 self.s.now e)) self.s.now start.from) × (start.to + length (subs_kept self.keep branch.base branch.places (numbers 6 64 0 self.s.now e) self.s.now start.from) ≤ length out.old) }
        ensures { Puts (subs_kept self.entry.keep branch.base branch.places (numbers 6 64 0 self.entry.s.now e) self.entry.s.now start.from) (subs_behind (length (numbers 6 64 0 self.entry.s.now e)) self.entry.s.now start.from) out.old start.to out.new result }
    {
        let mut spot = start;
        for t in positions(self.s, e, Level::Low) {
            spot = self.put_sub(branch, t, spot, out);
        }
        spot
    }

    // Puts what is kept behind the NPar(2) of a Par(2) block, if bit 8 did not end it there: SPar(2), if any of it is kept, and its NPar(3)
    // blocks. Else passes it over.
    fn put_group(self, c: u32, spot: Spot, out: &mut [u8]) -> Spot
        requires { (0 < spot.from) × (spot.from ≤ length self.s.now) × (group_form self.s.now spot.from ≡ Fine) × (c ≤ field_base 3) × (spot.to + length (group_kept self.keep c self.s.now spot.from) ≤ length out.old) }
        ensures { Puts (group_kept self.entry.keep c self.entry.s.now spot.from) (group_behind self.entry.s.now spot.from) out.old spot.to out.new result }
    {
        let from = spot.from;
        if 128 <= self.s[from - 1] {
            return spot;
        }
        let spars = spar_places(self.keep, c);
        let Some(extent) = self.some_extent(from, Level::Low, spars) else {
            let end = top_behind(self.s, from);
            return Spot { from: end, ..spot };
        };
        let next = self.put_extent(extent, Level::Low, spars, spot, out);
        let branch = Branch {
            base: c,
            places: spars,
        };
        self.put_subs(branch, from, next, out)
    }

    // Puts what is kept of the Par(2) block at the spot, if the SPar(1) position it belongs to is kept; else passes it over whole: it is
    // well-formed, so bit 8 stands in its last octet alone.
    fn put_par(self, branch: Branch, q: u32, spot: Spot, out: &mut [u8]) -> Spot
        requires { (form_at 64 self.s.now spot.from ≡ Fine) × (group_form self.s.now (behind 64 self.s.now spot.from) ≡ Fine) × (branch.base ≤ field_base 2) × (0 < q) × (q ≤ 511) × (spot.to + length (par_kept self.keep branch.base branch.places q self.s.now spot.from) ≤ length out.old) }
        ensures { Puts (par_kept self.entry.keep branch.base branch.places q self.entry.s.now spot.from) (group_behind self.entry.s.now (behind 64 self.entry.s.now spot.from)) out.old spot.to out.new result }
    {
        if is_kept(branch.places, q) {
            return self.put_whole(branch.base + q * OF_S, spot, out);
        }
        Spot {
            from: top_behind(self.s, spot.from),
            ..spot
        }
    }

    // Puts what is kept of the Par(2) block of an SPar(1), at the spot, with bit 8 in the last octet.
    fn put_whole(self, c: u32, spot: Spot, out: &mut [u8]) -> Spot
        requires { (form_at 64 self.s.now spot.from ≡ Fine) × (group_form self.s.now (behind 64 self.s.now spot.from) ≡ Fine) × (c ≤ field_base 3) × (spot.to + length (whole_par self.keep c self.s.now spot.from) ≤ length out.old) }
        ensures { Puts (whole_par self.entry.keep c self.entry.s.now spot.from) (group_behind self.entry.s.now (behind 64 self.entry.s.now spot.from)) out.old spot.to out.new result }
    {
        let npars = npar_places(self.keep, c);
        let middle = self.put_block(Level::Low, npars, spot, out);
        let end = self.put_group(c, middle, out);
        let last = end.to - 1;
        // By hand: `mark_last` takes 1.05 times the instructions on 64 deep octets, and 240 octets more of code.
        out[last] = out[last] % 128 + 128;
        end
    }

    // Puts the Par(2) blocks, from the spot on, of the SPar(1) block at a place. One loop for both levels would have to be given what is
    // put for a position as a closure, and would be longer than the two.
    fn put_pars(self, branch: Branch, e: usize, start: Spot, out: &mut [u8]) -> Spot
        requires { (e ≤ length self.s.now) × (start.from ≤ length self.s.now) × (pars_form (length (numbers 7 128 0 self.s.now e)) self.s.now start.from ≡ Fine) × (branch.base ≤ field_base 2) × (start.to + length (pars_kept self.keep branch.base branch.places (numbers 7 128 0 self.s.now e) self.s.now start.from) ≤ length out.old) }
        ensures { Puts (pars_kept self.entry.keep branch.base branch.places (numbers 7 128 0 self.entry.s.now e) self.entry.s.now start.from) (pars_behind (length (numbers 7 128 0 self.entry.s.now e)) self.entry.s.now start.from) out.old start.to out.new result }
    {
        // Most often nothing is announced, and one octet tells so.
        if octet_or_zero(self.s, e) == Level::Top.mark() {
            return start;
        }
        let mut spot = start;
        for q in positions(self.s, e, Level::Top) {
            spot = self.put_par(branch, q, spot, out);
        }
        spot
    }
}

// Puts what is kept of the field at a place.
fn put_field(s: &[u8], at: usize, field: Field, keep: Keep, out: &mut [u8], to: usize) -> Spot
    requires { (length s.now ≤ 64) × (field_form s.now at ≡ Fine) × (to + length (field_kept keep (base_of field) s.now at) ≤ length out.old) }
    ensures { Puts (field_kept keep (base_of field) s.now at) (field_behind s.now at) out.old to out.new result }
{
    let source = Source { s, keep };
    let base = base_of(field);
    let npars = npar_places(keep, base);
    let first = source.put_block(Level::Top, npars, Spot { from: at, to }, out);
    let spars = spar_places(keep, base);
    let second = source.put_block(Level::Top, spars, first, out);
    let branch = Branch {
        base,
        places: spars,
    };
    source.put_pars(branch, first.from, second, out)
}

// Rewrites the field at a place with what is kept of it, in minimal form, and gives how many octets that are: none where the field is
// not well-formed or the output has under 64 octets.
pub fn rewrite_field(s: &[u8], at: usize, field: Field, keep: Keep, out: &mut [u8]) -> Option<usize>
    ensures { Rewrites keep field s.now at out.old result out.new }
{
    if out.len() < MOST_OCTETS {
        return None;
    }
    field_end(s, at)?;
    let end = put_field(s, at, field, keep, out, 0);
    Some(end.to)
}

// What is kept of the standard field of a message of a type: all of an MS, of a CL and a CLR the named; an ACK and a NAK have none.
fn standard_keep(kind: MessageType) -> Option<Keep>
    ensures { result ≡ pick (has_fields (type_number kind)) (Some (standard_keep (type_number kind))) None }
{
    match kind {
        MessageType::Ms => Some(Keep::All),
        MessageType::Cl | MessageType::Clr => Some(Keep::Named),
        _ => None,
    }
}

// Copies the octets from a place on to the spot behind what was put, and gives the place behind them.
fn put_rest(s: &[u8], from: usize, out: &mut [u8], to: usize) -> usize
    requires { (from ≤ length s.now) × (to + length (drop from s.now) ≤ length out.old) }
    ensures { (result ≡ to + length (drop from s.now)) × (out.new ≡ sets out.old to (drop from s.now)) }
{
    // By a loop: `copy_from_slice` is a call of memmove here, which a board need not have.
    let mut at = to;
    for i in from..s.len() {
        out[at] = s[i];
        at += 1;
    }
    at
}

// Puts the struck form of a well-formed message whose parts are known, and gives how many octets it has.
fn put_struck(s: &[u8], parts: Parts, out: &mut [u8]) -> usize
    requires { Checks s.now (Ok parts) × (most_octets ≤ length out.old) }
    ensures { (result ≡ length (struck_form s.now)) × (out.new ≡ put (struck_form s.now) out.old) }
{
    out[0] = s[0];
    let Some(keep) = standard_keep(parts.kind) else {
        return 1;
    };
    let first = put_field(s, 1, Field::Identification, Keep::Named, out, 1);
    let second = put_field(s, parts.standard, Field::Standard, keep, out, first.to);
    put_rest(s, parts.tail, out, second.to)
}

// Strikes a message into the output, and gives how many octets it has then.
pub fn strike_message(s: &[u8], out: &mut [u8]) -> Result<usize, StrikeRefusal>
    ensures { Strikes s.now out.old result out.new }
{
    if out.len() < MOST_OCTETS {
        return Err(StrikeRefusal::BadLent);
    }
    let parts = check_message(s)?;
    Ok(put_struck(s, parts, out))
}
