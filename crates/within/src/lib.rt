// One field held beside another, block by block: whether all codes of the one are codes of the other.
#![tactic(auto)]

ghost use Rattle.std.specs.Prelude.{◌<◌, true, ◌≡◌};
ghost use Rattle.tree.specs.Block.{behind};
ghost use Rattle.tree.specs.Levels.{width_of, mark_of};
ghost use Rattle.tree.specs.declared.Level.{Level};
ghost use Rattle.tree.specs.declared.Level.TheVariants.{Top, Low};
ghost use Rattle.tree.specs.Wide.{low_fits, field_fits};
ghost use Rattle.within.specs.Pairing.{next_place, BlockWithin, BlockEmpty, GroupWithin, spars, OneWithin, AllWithin, FieldWithin, next_octets, next_bit};
ghost use Rattle.within.specs.Promises.{TellsFirst, TellsWithin, TellsWithinFar};

use octets::octet_or_zero;
use tree::{Field, Level, MOST_OCTETS, bit8, block_behind, field_fits, group_behind, top_behind};

// Whether the field at a place has a position of the first octet of its NPar(1), from 1 to 7.
pub fn has_first(s: &[u8], at: usize, field: Field, q: u32) -> bool
    ensures { TellsFirst s.now at field q result }
{
    if MOST_OCTETS < s.len() {
        return false;
    }
    if q == 0 {
        return false;
    }
    if 7 < q {
        return false;
    }
    (octet_or_zero(s, at) >> (q - 1)) % 2 == 1
}

// The places behind what was found so far in two runs of octets.
#[derive(Clone, Copy)]
struct Places {
    from: usize,
    to: usize,
}

// A walk over the positions that are set in a block of the other octets, with the same block of the first: the places of the octets
// that come next, what is left of those before, and whether the position that was found last is set in the first too.
#[derive(Clone, Copy)]
struct Walk {
    i: usize,
    j: usize,
    mine: u8,
    theirs: u8,
    set: bool,
}

// Two runs of octets that are held beside each other, the first to lie within the second: below level 1 neither has a position above 511.
#[derive(Clone, Copy)]
struct Pair<'a> {
    s: &'a [u8],
    t: &'a [u8],
    ghost mine_low: { low_fits 0 s.now ≡ true },
    ghost theirs_low: { low_fits 0 t.now ≡ true },
}

// What the positions of an SPar block announce, by the level of the block.
trait Announced {
    const LEVEL: Level;

    ghost LEVEL: { Level };

    // The blocks of one position that is set in the other octets: set in the first too, or not.
    fn one(pair: Pair, mine: bool, at: Places) -> Option<Places>
        ensures { OneWithin (spars LEVEL pair.entry.s.now) (spars LEVEL pair.entry.t.now) mine at result };
}

// The NPar(3) blocks of SPar(2).
struct Subs;

// The Par(2) blocks of SPar(1).
struct Pars;

impl Announced for Subs {
    const LEVEL: Level = Level::Low;

    ghost LEVEL = { Low };

    fn one(pair: Pair, mine: bool, at: Places) -> Option<Places> {
        if mine {
            return pair.block_within(Level::Low, at);
        }
        Some(Places {
            from: at.from,
            to: block_behind(pair.t, at.to),
        })
    }
}

impl Announced for Pars {
    const LEVEL: Level = Level::Top;

    ghost LEVEL = { Top };

    fn one(pair: Pair, mine: bool, at: Places) -> Option<Places> {
        if !mine {
            return Some(Places {
                from: at.from,
                to: group_behind(pair.t, block_behind(pair.t, at.to)),
            });
        }
        let middle = pair.block_within(Level::Low, at)?;
        pair.group_within(middle)
    }
}

// The place of the octet of a block behind the one at a place; behind the octets where the block ends there.
fn next_place(t: &[u8], k: usize, level: Level) -> usize
    ensures { result ≡ next_place (mark_of level) t.now k }
{
    match t.get(k) {
        Some(o) if *o < level.mark() => k + 1,
        _ => t.len(),
    }
}

// The place behind the block at a place.
fn behind(t: &[u8], k: usize, level: Level) -> usize
    ensures { result ≡ behind (mark_of level) t.now k }
{
    match level {
        Level::Low => block_behind(t, k),
        Level::Top => top_behind(t, k),
    }
}

// No position may be set in the block at a place, where the other octets have none; the others stay where they are.
fn block_empty(s: &[u8], e: usize, to: usize, level: Level) -> Option<Places>
    ensures { BlockEmpty (width_of level) (mark_of level) s.now e to result }
{
    let mark = level.mark();
    let mut from = e;
    for i in e..s.len() {
        let o = s[i];
        from = i + 1;
        if o % mark != 0 {
            return None;
        }
        if mark <= o {
            return Some(Places { from, to });
        }
    }
    Some(Places { from, to })
}

impl Walk {
    // The lowest position that is left.
    fn next_bit(self) -> Walk
        requires { 0 < self.theirs }
        ensures { result ≡ next_bit self }
    {
        let zeros = self.theirs.trailing_zeros();
        let mine = self.mine >> zeros;
        let theirs = self.theirs >> zeros;
        Walk {
            i: self.i,
            j: self.j,
            mine: mine >> 1,
            theirs: theirs >> 1,
            set: mine % 2 == 1,
        }
    }
}

impl<'a> Pair<'a> {
    // The positions set in the block of the first have to be set in that of the other too.
    fn block_within(self, level: Level, at: Places) -> Option<Places>
        ensures { BlockWithin (width_of level) (mark_of level) self.entry.s.now at.from self.entry.t.now at.to result }
    {
        let mark = level.mark();
        let mut from = at.from;
        let mut to = at.to;
        for i in at.from..self.s.len() {
            let mine = self.s[i];
            let theirs = octet_or_zero(self.t, to);
            let set = mine % mark;
            from = i + 1;
            if set & theirs != set {
                return None;
            }
            if mark <= theirs {
                to += 1;
                if mark <= mine {
                    return Some(Places { from, to });
                }
                return block_empty(self.s, from, to, level);
            }
            if mark <= mine {
                break;
            }
            if to < self.t.len() {
                to += 1;
            }
        }
        Some(Places {
            from,
            to: behind(self.t, to, level),
        })
    }

    // The walk at the next octets, where nothing is left of those before.
    fn next_octets(self, walk: Walk, level: Level) -> Walk
        ensures { result ≡ next_octets (mark_of level) self.entry.s.now self.entry.t.now walk }
    {
        let i = walk.i;
        let j = walk.j;
        Walk {
            i: next_place(self.s, i, level),
            j: next_place(self.t, j, level),
            mine: octet_or_zero(self.s, i),
            theirs: octet_or_zero(self.t, j) % level.mark(),
            set: false,
        }
    }

    // The SPar block of the first has to lie within that of the other, with what its positions announce.
    fn spars_within<A: Announced>(self, at: Places) -> Option<Places>
        ensures { AllWithin (spars A.LEVEL self.entry.s.now) (spars A.LEVEL self.entry.t.now) (width_of A.LEVEL) (mark_of A.LEVEL) self.entry.s.now at.from self.entry.t.now at.to result }
    {
        let level = A::LEVEL;
        let mut found = self.block_within(level, at)?;
        let mut walk = Walk {
            i: at.from,
            j: at.to,
            mine: 0,
            theirs: 0,
            set: false,
        };
        'walk: loop {
            if walk.theirs == 0 {
                if self.t.len() <= walk.j {
                    return Some(found);
                }
                walk = self.next_octets(walk, level);
            } else {
                walk = walk.next_bit();
                found = A::one(self, walk.set, found)?;
            }
        }
    }

    // What stands in a Par(2) block behind its NPar(2), which ends before the place, has to lie within the same in the other.
    fn group_within(self, at: Places) -> Option<Places>
        ensures { GroupWithin self.entry.s.now at.from self.entry.t.now at.to result }
    {
        let from = at.from;
        let to = at.to;
        if bit8(self.t, to) {
            if bit8(self.s, from) {
                return Some(at);
            }
            return block_empty(self.s, from, to, Level::Low);
        }
        if bit8(self.s, from) {
            return Some(Places {
                from,
                to: group_behind(self.t, to),
            });
        }
        self.spars_within::<Subs>(at)
    }
}

// Whether the field at a place lies within the field at a place of other octets.
fn field_within(s: &[u8], i: usize, t: &[u8], j: usize) -> bool
    requires { (field_fits s.now i ≡ true) × (field_fits t.now j ≡ true) }
    ensures { FieldWithin s.now i t.now j result }
{
    let pair = Pair { s, t };
    match pair.block_within(Level::Top, Places { from: i, to: j }) {
        Some(rest) => pair.spars_within::<Pars>(rest).is_some(),
        None => false,
    }
}

// Whether all codes of the field at a place are codes of the same field in other octets.
pub fn lies_within(s: &[u8], i: usize, t: &[u8], j: usize, field: Field) -> bool
    ensures { TellsWithin s.now i t.now j field result }
{
    if MOST_OCTETS < s.len() {
        return true;
    }
    if MOST_OCTETS < t.len() {
        return field_within(s, i, &t[0..0], 0);
    }
    field_within(s, i, t, j)
}

// The same where the other octets may be more than a message has; those before the place are not looked at.
pub fn lies_within_far(s: &[u8], i: usize, t: &[u8], j: usize, field: Field) -> bool
    ensures { TellsWithinFar s.now i t.now j field result }
{
    if MOST_OCTETS < s.len() {
        return true;
    }
    if MOST_OCTETS < t.len() {
        if j < t.len() {
            let far = &t[j..];
            if field_fits(far, 0) {
                return field_within(s, i, far, 0);
            }
        }
    }
    lies_within(s, i, t, j, field)
}
