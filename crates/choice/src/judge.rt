// A standard field that an own table or a wish may hold (RULES, Own table, wishes, choice), judged where it lies against names. What is
// judged inside gives the place behind it, or none where it is not good.
ghost use Rattle.std.specs.Prelude.{◌≡◌, ◌≤◌, length};
ghost use Rattle.std.specs.Bool.{then_some};
ghost use Rattle.tree.specs.Block.{numbers, behind};
ghost use Rattle.tree.specs.Codes.{group_behind, field_behind};
ghost use Rattle.tree.specs.Levels.{width_of, mark_of};
ghost use Rattle.good.specs.Goodness.{good_block, good_sub, good_group, good_par, good_blocks, pars_judged, good_in};

use super::learn::NameSet;
use tree::{Level, bit8, positions};

// The octets that an MS has room for behind octet 1 and an I of two octets.
const MOST_STANDARD: usize = 61;

// The place behind the block at a place; none where it is not well-formed, has a position that is no bit of a number, or has nothing
// set in its last octet and another octet before that.
fn block_good(s: &[u8], e: usize, level: Level, names: u32) -> Option<usize>
    ensures { result ≡ then_some (good_block (width_of level) (mark_of level) names s.now e) (behind (mark_of level) s.now e) }
{
    let w = level.width();
    let m = level.mark();
    let mut allowed = names;
    for i in e..s.len() {
        let octet = s[i];
        let set = u32::from(octet % m);
        if set & allowed != set {
            return None;
        }
        if m <= octet {
            // Below level 1, bit 8 alone ends no block.
            if (octet / m) % 2 == 0 {
                return None;
            }
            if set == 0 && e < i {
                return None;
            }
            return Some(i + 1);
        }
        allowed >>= w;
    }
    None
}

// The place behind the only NPar(3) block, at a place: bit 8 stands in its last octet and not before.
fn sub_good(s: &[u8], e: usize, names: u32) -> Option<usize>
    ensures { result ≡ then_some (good_sub names s.now e) (behind 64 s.now e) }
{
    if bit8(s, e) {
        return None;
    }
    let next = block_good(s, e, Level::Low, names)?;
    bit8(s, next).then_some(next)
}

// The place behind what stands in a Par(2) block behind its NPar(2), which ends before a place; q is the SPar(1).
fn group_good(s: &[u8], e: usize, q: usize, names: &NameSet) -> Option<usize>
    ensures { result ≡ then_some (good_group names.now.bits q s.now e) (group_behind s.now e) }
{
    if bit8(s, e) {
        return Some(e);
    }
    if s.len() <= e {
        return None;
    }
    if s[e] % 64 == 0 {
        return None;
    }
    let next = block_good(s, e, Level::Low, names.subs(q))?;
    sub_good(s, next, names.lows(q))
}

// The place behind the Par(2) block at a place; q is the SPar(1).
fn par_good(s: &[u8], e: usize, q: usize, names: &NameSet) -> Option<usize>
    ensures { result ≡ then_some (good_par names.now.bits q s.now e) (group_behind s.now (behind 64 s.now e)) }
{
    let next = block_good(s, e, Level::Low, names.npars(q))?;
    group_good(s, next, q, names)
}

// The place behind the Par(2) blocks from a place on, of the SPar(1) block at another.
fn pars_good(s: &[u8], e: usize, start: usize, names: &NameSet) -> Option<usize>
    requires { length s.now ≤ 64 }
    ensures { result ≡ pars_judged names.now.bits (numbers 7 128 0 s.now e) s.now start }
{
    let mut at = start;
    for q in positions(s, e, Level::Top) {
        at = par_good(s, at, q as usize, names)?;
    }
    Some(at)
}

// The place behind a field.
fn field_good(s: &[u8], names: &NameSet) -> Option<usize>
    requires { length s.now ≤ 64 }
    ensures { result ≡ then_some (good_blocks names.now.bits s.now) (field_behind s.now 0) }
{
    let e = block_good(s, 0, Level::Top, 0)?;
    let start = block_good(s, e, Level::Top, names.spars())?;
    pars_good(s, e, start, names)
}

// Whether octets are a standard field in minimal form, with parameters among the names only.
pub(crate) fn is_good_in(t: &[u8], names: &NameSet) -> bool
    ensures { result ≡ good_in names.now.bits t.now }
{
    t.len() <= MOST_STANDARD && field_good(t, names) == Some(t.len())
}
