// The codes of a field (RULES, Parameter codes), stored in a list of numbers or of octets as the positions of its blocks are read.
#![tactic(auto)]

ghost use Rattle.std.specs.Prelude.{◌+◌, ◌*◌, ◌%◌, ◌^◌, ◌≤◌, ◌<◌, ℕ, List, length, set, [], ◌∷◌, ◌++◌, ◌≡◌};
ghost use Rattle.tree.specs.Levels.{width_of, mark_of};
ghost use Rattle.tree.specs.Block.{set_bits, behind, numbers};
ghost use Rattle.tree.specs.Codes.{of_t, of_s, field_base, sub_codes, subs_behind, group_codes, group_behind, par_codes, pars_behind, field_codes};
ghost use Rattle.tree.specs.Fields.{fours};
ghost use Rattle.std.proofs.lemmas.List.Edits.{sets};
ghost use Rattle.fill.specs.Storing.{most_of_field, most_codes, laid, set_number, set_fours, Fills};
ghost use Rattle.fill.specs.Promises.{codes_of_both, FillsFields};

use tree::{
    IDENTIFICATION, Level, MOST_OCTETS, OF_S, OF_T, STANDARD, bit8, block_behind, top_behind,
};

// How many codes are stored, and how far reading has come.
#[derive(Clone, Copy)]
struct Tally {
    count: usize,
    at: usize,
}

// What a list of codes is made of: numbers, one to a code, or octets, four to a code.
trait Item: Copy {
    ghost stored: { List Self → ℕ → ℕ → List Self };

    // Stores a code behind n others, where there is room for it.
    fn store(list: &mut [Self], n: usize, code: u32)
        requires { n < most_codes }
        ensures { list.new ≡ stored list.old n code };
}

impl Item for u32 {
    ghost stored = { set_number };

    fn store(list: &mut [u32], n: usize, code: u32) {
        if n < list.len() {
            list[n] = code;
        }
    }
}

impl Item for u8 {
    ghost stored = { set_fours };

    fn store(list: &mut [u8], n: usize, code: u32) {
        put_four(list, 4 * n, code);
    }
}

// Stores an octet at a place, where there is room for it.
fn put_octet(list: &mut [u8], i: usize, octet: u8)
    ensures { list.new ≡ set list.old i octet }
{
    if i < list.len() {
        list[i] = octet;
    }
}

// Stores a number as four octets, lowest first, as many as there is room for.
fn put_four(list: &mut [u8], i: usize, c: u32)
    requires { i ≤ 4 * most_codes }
    ensures { list.new ≡ sets list.old i (fours (c ∷ [])) }
{
    let octets = c.to_le_bytes();
    if i + octets.len() <= list.len() {
        list[i..i + octets.len()].copy_from_slice(&octets);
        return;
    }
    put_octet(list, i, octets[0]);
    put_octet(list, i + 1, octets[1]);
    put_octet(list, i + 2, octets[2]);
    put_octet(list, i + 3, octets[3]);
}

// Stores the codes of the positions that are set in an octet, above a number, behind the n stored before. Here and below bits are walked by
// hand: with an iterator over positions the message reader takes 304 octets of stack, and the C header allows 208.
fn fill_bits<T: Item>(octet: u8, above: u32, list: &mut [T], n: usize) -> usize
    requires { (octet < 128) × (above ≤ field_base 4) × (n + length (set_bits 7 above octet) ≤ most_codes) }
    ensures { (result ≡ n + length (set_bits 7 above octet)) × (list.new ≡ laid T.stored list.old n (set_bits 7 above octet)) }
{
    let mut bits = octet as u32;
    let mut code = above;
    let mut count = n;
    while bits != 0 {
        let passed = u32::trailing_zeros(bits);
        bits = bits >> passed >> 1;
        code += passed + 1;
        T::store(list, count, code);
        count += 1;
    }
    count
}

// The octets of a message, of which the codes are stored.
#[derive(Clone, Copy)]
struct Octets<'a> {
    run: &'a [u8],
    ghost few: { length run.now ≤ 64 },
}

impl<'a> Octets<'a> {
    // Stores the codes of the block at a place, above a number.
    fn fill_block<T: Item>(self, level: Level, p: u32, list: &mut [T], start: Tally) -> Tally
        requires { (p ≤ field_base 3) × (start.count + length (numbers (width_of level) (mark_of level) p self.run.now start.at) ≤ most_codes) }
        ensures { Fills T.stored (numbers (width_of level) (mark_of level) p self.entry.run.now start.at) (behind (mark_of level) self.entry.run.now start.at) list.old start.count list.new result }
    {
        let mark = level.mark();
        let width = level.width();
        let mut count = start.count;
        let mut above = p;
        let mut at = start.at;
        for i in start.at..self.run.len() {
            let o = self.run[i];
            at = i + 1;
            count = fill_bits(o % mark, above, list, count);
            if mark <= o {
                return Tally { count, at };
            }
            above += width;
        }
        Tally { count, at }
    }

    // Stores a code, which is not 0, and the NPar block below level 1 at the tally's place, above that code.
    fn fill_unit<T: Item>(self, code: u32, list: &mut [T], start: Tally) -> Tally
        requires { (0 < code) × (code ≤ field_base 3) × (start.count + length (code ∷ numbers 6 64 code self.run.now start.at) ≤ most_codes) }
        ensures { Fills T.stored (code ∷ numbers 6 64 code self.entry.run.now start.at) (behind 64 self.entry.run.now start.at) list.old start.count list.new result }
    {
        let at = start.at;
        let count = fill_bits(1, code - 1, list, start.count);
        self.fill_block(Level::Low, code, list, Tally { count, at })
    }

    // Stores the SPar(2) above a code whose positions are set in an octet, each with the NPar(3) block that follows.
    fn fill_subs_of<T: Item>(self, octet: u8, c: u32, list: &mut [T], start: Tally) -> Tally
        requires { (octet < 128) × (c + 7 * of_t ≤ field_base 3) × (start.count + length (sub_codes c (set_bits 7 0 octet) self.run.now start.at) ≤ most_codes) }
        ensures { Fills T.stored (sub_codes c (set_bits 7 0 octet) self.entry.run.now start.at) (subs_behind (length (set_bits 7 0 octet)) self.entry.run.now start.at) list.old start.count list.new result }
    {
        let mut bits = octet as u32;
        let mut code = c;
        let mut tally = start;
        while bits != 0 {
            let passed = u32::trailing_zeros(bits);
            bits = bits >> passed >> 1;
            code += (passed + 1) * OF_T;
            tally = self.fill_unit(code, list, tally);
        }
        tally
    }

    // Stores the SPar(2) block at a place, with the NPar(3) blocks from the tally's place on.
    fn fill_subs<T: Item>(self, e: usize, c: u32, list: &mut [T], start: Tally) -> Tally
        requires { (c + of_s ≤ field_base 3) × (start.count + length (sub_codes c (numbers 6 64 0 self.run.now e) self.run.now start.at) ≤ most_codes) }
        ensures { Fills T.stored (sub_codes c (numbers 6 64 0 self.entry.run.now e) self.entry.run.now start.at) (subs_behind (length (numbers 6 64 0 self.entry.run.now e)) self.entry.run.now start.at) list.old start.count list.new result }
    {
        let mut tally = start;
        let mut above = c;
        for i in e..self.run.len() {
            let o = self.run[i];
            tally = self.fill_subs_of(o % 64, above, list, tally);
            if 64 <= o {
                return tally;
            }
            above += 6 * OF_T;
        }
        tally
    }

    // Stores what stands in a Par(2) block behind its NPar(2), which ends before the tally's place.
    fn fill_group<T: Item>(self, c: u32, list: &mut [T], start: Tally) -> Tally
        requires { (c + of_s ≤ field_base 3) × (start.count + length (group_codes c self.run.now start.at) ≤ most_codes) }
        ensures { Fills T.stored (group_codes c self.entry.run.now start.at) (group_behind self.entry.run.now start.at) list.old start.count list.new result }
    {
        let e = start.at;
        let count = start.count;
        if bit8(self.run, e) {
            return start;
        }
        let at = block_behind(self.run, e);
        self.fill_subs(e, c, list, Tally { count, at })
    }

    // Stores the SPar(1) of a code, and the Par(2) block at the tally's place.
    fn fill_par<T: Item>(self, code: u32, list: &mut [T], start: Tally) -> Tally
        requires { (0 < code) × (code + of_s ≤ field_base 3) × (start.count + length (code ∷ (numbers 6 64 code self.run.now start.at ++ group_codes code self.run.now (behind 64 self.run.now start.at))) ≤ most_codes) }
        ensures { Fills T.stored (code ∷ (numbers 6 64 code self.entry.run.now start.at ++ group_codes code self.entry.run.now (behind 64 self.entry.run.now start.at))) (group_behind self.entry.run.now (behind 64 self.entry.run.now start.at)) list.old start.count list.new result }
    {
        let middle = self.fill_unit(code, list, start);
        self.fill_group(code, list, middle)
    }

    // Stores the SPar(1) above a code whose positions are set in an octet, each with the Par(2) block that follows.
    fn fill_pars_of<T: Item>(self, octet: u8, base: u32, list: &mut [T], start: Tally) -> Tally
        requires { (octet < 128) × (base + 8 * of_s ≤ field_base 3) × (start.count + length (par_codes base (set_bits 7 0 octet) self.run.now start.at) ≤ most_codes) }
        ensures { Fills T.stored (par_codes base (set_bits 7 0 octet) self.entry.run.now start.at) (pars_behind (length (set_bits 7 0 octet)) self.entry.run.now start.at) list.old start.count list.new result }
    {
        let mut bits = octet as u32;
        let mut code = base;
        let mut tally = start;
        while bits != 0 {
            let passed = u32::trailing_zeros(bits);
            bits = bits >> passed >> 1;
            code += (passed + 1) * OF_S;
            tally = self.fill_par(code, list, tally);
        }
        tally
    }

    // Stores the SPar(1) block at a place, with the Par(2) blocks from the tally's place on. It is not one function with that of SPar(2),
    // since what stands under SPar(1) has an SPar(2) block in it, which would make it call itself.
    fn fill_pars<T: Item>(self, e: usize, base: u32, list: &mut [T], start: Tally) -> Tally
        requires { (base ≤ field_base 2) × (start.count + length (par_codes base (numbers 7 128 0 self.run.now e) self.run.now start.at) ≤ most_codes) }
        ensures { Fills T.stored (par_codes base (numbers 7 128 0 self.entry.run.now e) self.entry.run.now start.at) (pars_behind (length (numbers 7 128 0 self.entry.run.now e)) self.entry.run.now start.at) list.old start.count list.new result }
    {
        let mut tally = start;
        let mut above = base;
        for i in e..self.run.len() {
            let o = self.run[i];
            tally = self.fill_pars_of(o % 128, above, list, tally);
            if 128 <= o {
                return tally;
            }
            above += 7 * OF_S;
        }
        tally
    }

    // Stores the codes of the field at a place, behind the n stored before, and gives how many are stored now.
    fn fill_field<T: Item>(self, at: usize, base: u32, list: &mut [T], n: usize) -> usize
        requires { (base ≤ field_base 2) × (n ≤ most_of_field) }
        ensures { (result ≡ n + length (field_codes base self.entry.run.now at)) × (list.new ≡ laid T.stored list.old n (field_codes base self.entry.run.now at)) }
    {
        let first = self.fill_block(Level::Top, base, list, Tally { count: n, at });
        let e = first.at;
        let start = Tally {
            count: first.count,
            at: top_behind(self.run, e),
        };
        self.fill_pars(e, base, list, start).count
    }

    // Stores the codes of I and then those of S, which are at these places, and gives how many there are. One call serves both fields, so
    // that it is compiled once.
    fn fill_both<T: Item>(self, identification: usize, standard: usize, list: &mut [T]) -> usize
        ensures { (result ≡ length (codes_of_both self.entry.run.now identification standard)) × (list.new ≡ laid T.stored list.old 0 (codes_of_both self.entry.run.now identification standard)) }
    {
        let mut n = 0;
        for (base, at) in [(IDENTIFICATION, identification), (STANDARD, standard)] {
            n = self.fill_field(at, base, list, n);
        }
        n
    }
}

// Stores the codes of I and then those of S, which are at these places, as many as there is room for in each list, and gives how
// many there are. The caller lends an empty one for the form that it does not want.
pub fn fill_fields(
    s: &[u8],
    identification: usize,
    standard: usize,
    list: &mut [u32],
    octets: &mut [u8],
) -> usize
    ensures { FillsFields s.now identification standard list.old octets.old result list.new octets.new }
{
    if MOST_OCTETS < s.len() {
        return 0;
    }
    let message = Octets { run: s };
    if octets.len() == 0 {
        return message.fill_both(identification, standard, list);
    }
    if list.len() != 0 {
        message.fill_both(identification, standard, list);
    }
    message.fill_both(identification, standard, octets)
}
