// The names that a standard field is judged against: those of all standard parameters, and those of an own table.
ghost use Rattle.std.specs.Prelude.{true, ◌≡◌, ◌≤◌, ◌<◌, length};
ghost use Rattle.tree.specs.Block.{numbers, behind};
ghost use Rattle.tree.specs.Codes.{field_base, field_codes};
ghost use Rattle.tree.specs.Fields.{is_in};
ghost use Rattle.tree.specs.Levels.{width_of, mark_of};
ghost use Rattle.tree.specs.Order.{AllBelow};
ghost use Rattle.names.specs.Named.{standard_code};
ghost use Rattle.good.specs.Goodness.{Fit, Names, good_by, below_at, spars_in, npars_in, subs_in, lows_in};
ghost use Rattle.good.specs.Learned.{block_bits, group_put, group_end, par_put, pars_put};

use tree::{Level, bit8, block_behind, positions, top_behind};

// Sixteen numbers with a bit for each position that may be set, position 1 the lowest: SPar(1), NPar(2) of each of the nine SPar(1), and
// NPar(3) and SPar(2) of the two that may have them and of the others.
#[derive(Drop)]
pub(crate) struct NameSet {
    bits: [u32; 16],
    ghost fit: { Fit bits },
}

impl NameSet {
    // The names of all standard parameters (Tables 6-2 to 6-10): as numbers, since so nothing is looked up in each step.
    pub(crate) fn standard() -> NameSet
        ensures { Names standard_code result.bits }
    {
        let mut names = NameSet { bits: [0; 16] };
        names.put_standard();
        names
    }

    // Puts the same where others stood: a value beside them would be 64 octets more of a step's stack.
    pub(crate) fn put_standard(&mut self)
        ensures { Names standard_code self.new.bits }
    {
        self.bits = [
            0x1FF, 0x1FFDDF, 0x7FDB, 0x07, 0x03, 0x1DF, 0x07, 0x07, 0x07, 0x3FFFFFF8, 0x7F, 0x7F,
            0, 0x01, 0x01, 0,
        ];
    }

    // Puts the names of a good own table in place of others.
    pub(crate) fn learn(&mut self, own: &[u8])
        requires { good_by standard_code own.now ≡ true }
        ensures { Names (λ c. is_in c (field_codes (field_base 2) own.now 0)) self.new.bits }
    {
        let e = top_behind(own, 0);
        let start = top_behind(own, e);
        self.bits = [0; 16];
        self.bits[0] = block_bits(own, e, start, Level::Top);
        learn_pars(own, e, start, &mut self.bits);
    }

    // Those of SPar(1).
    pub(crate) fn spars(&self) -> u32
        ensures { result ≡ spars_in self.now.bits }
    {
        self.bits[0]
    }

    // Those of the NPar(2) block of an SPar(1), of which there are nine.
    pub(crate) fn npars(&self, q: usize) -> u32
        ensures { result ≡ npars_in self.now.bits q }
    {
        if 9 < q {
            return 0;
        }
        self.bits[q]
    }

    // Those of the SPar(2) block of an SPar(1).
    pub(crate) fn subs(&self, q: usize) -> u32
        ensures { (result ≡ subs_in self.now.bits q) × (result < 2) }
    {
        self.bits[below_at(q) + 3]
    }

    // Those of the NPar(3) block of the first SPar(2) of an SPar(1).
    pub(crate) fn lows(&self, q: usize) -> u32
        ensures { result ≡ lows_in self.now.bits q }
    {
        self.bits[below_at(q)]
    }
}

// Where the names of the NPar(3) block of an SPar(1) are; those of its SPar(2) are three behind. Two SPar(1) have such.
fn below_at(q: usize) -> usize
    ensures { (result ≡ below_at q) × (result ≤ 12) }
{
    match q {
        3 => 10,
        8 => 11,
        _ => 12,
    }
}

// The positions that are set in the block between two places, as the bits of a number. No standard one is above 32.
fn block_bits(t: &[u8], e: usize, end: usize, level: Level) -> u32
    requires { end ≡ behind (mark_of level) t.now e }
    ensures { result ≡ block_bits (width_of level) (mark_of level) t.now e }
{
    let w = level.width();
    let m = level.mark();
    let mut bits = 0u32;
    // by places, from which the contract counts: each bound follows from the range
    for i in (e..end).rev() {
        bits = (bits << w) + u32::from(t[i] % m);
    }
    bits
}

// Puts the names of what stands in a Par(2) block behind its NPar(2), which ends before a place: the only SPar(2) and its NPar(3). The
// SPar(1) is q. Gives the place behind.
fn learn_group(t: &[u8], q: usize, e: usize, bits: &mut [u32; 16]) -> usize
    ensures { (result ≡ group_end t.now e) × (bits.new ≡ group_put q t.now e bits.old) }
{
    if bit8(t, e) {
        return e;
    }
    let place = below_at(q);
    let next = block_behind(t, e);
    let end = block_behind(t, next);
    bits[place + 3] = 1;
    bits[place] = block_bits(t, next, end, Level::Low);
    end
}

// Puts the names of the Par(2) block at a place, and gives the place behind it.
fn learn_par(t: &[u8], q: usize, e: usize, bits: &mut [u32; 16]) -> usize
    requires { q ≤ 9 }
    ensures { (result ≡ group_end t.now (behind 64 t.now e)) × (bits.new ≡ par_put q t.now e bits.old) }
{
    let next = block_behind(t, e);
    bits[q] = block_bits(t, e, next, Level::Low);
    learn_group(t, q, next, bits)
}

// Puts the names of the Par(2) blocks from a place on, one for each position of the SPar(1) block at another.
fn learn_pars(t: &[u8], e: usize, start: usize, bits: &mut [u32; 16])
    requires { (length t.now ≤ 64) × AllBelow 10 (numbers 7 128 0 t.now e) }
    ensures { bits.new ≡ pars_put (numbers 7 128 0 t.now e) t.now start bits.old }
{
    let mut at = start;
    for q in positions(t, e, Level::Top) {
        at = learn_par(t, q as usize, at, bits);
    }
}
