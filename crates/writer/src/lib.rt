// The message writer (V.8 bis clause 8; RULES): a message of a type, a revision, a list of codes and NS, always in minimal form.
#![tactic(auto)]

ghost use Rattle.std.specs.Prelude.{◌≡◌, true, [], ◌∷◌, ◌+◌, ◌*◌, ◌≤◌, ◌<◌, length, IfOk, IfErr};
ghost use Rattle.octets.specs.Lay.{over};
ghost use Rattle.tree.specs.Codes.{of_f, field_base};
ghost use Rattle.tree.specs.Fields.{most_octets};
ghost use Rattle.tree.specs.Levels.{width_of, mark_of};
ghost use Rattle.meaning.specs.Meaning.{shaped, all_shaped, ascending, all_parented};
ghost use Rattle.meaning.specs.Written.{skipped, block_octets, run, from, positions, marked};
ghost use Rattle.message.specs.Kinds.{known};
ghost use Rattle.meaning.specs.Writing.{ends_there, ns_agrees, message_octets};
ghost use Rattle.writer.specs.Inner.{stands_under, ListRefused, Drafts, DraftRefused, Puts, ends_par, lower_block, heads_from, field_put, fields_put};
ghost use Rattle.meaning.specs.Inner.{Between};
ghost use Rattle.writer.specs.Promises.{MessageWrites};

use message::{has_fields, is_known, ns_form};
use octets::copy_front;
use std::marker::Model;
use tree::{IDENTIFICATION, Level, MOST_OCTETS, OF_F, OF_S, OF_T, STANDARD, is_fine, mark_last};

// The code that announces NS, 1.0.0.7.
const NON_STANDARD: u32 = IDENTIFICATION + 7;

// Why there is no message, by the rules' numbers. BadLent: the output is under 64 octets.
#[derive(Clone, Copy, Debug, PartialEq, Eq)]
pub enum MessageWriteRefusal {
    BadLent = 1,
    BadType = 3,
    BadCode = 5,
    NotAscending = 6,
    NoParent = 7,
    NotEmpty = 8,
    BadNs = 9,
    TooLong = 10,
}

// Whether a code has a possible shape.
fn is_shaped(code: u32) -> bool
    ensures { result ≡ shaped code }
{
    let f = code / OF_F;
    if f < 1 {
        return false;
    }
    if 2 < f {
        return false;
    }
    if code % OF_F == 0 {
        return false;
    }
    if code / OF_S % 512 == 0 {
        return code / OF_T % 512 == 0;
    }
    true
}

// Whether all codes of a list have a possible shape.
fn are_shaped(list: &[u32]) -> bool
    ensures { result ≡ all_shaped list.now }
{
    list.iter().all(|code| is_shaped(*code))
}

// Whether a list is strictly ascending.
fn is_ascending(list: &[u32]) -> bool
    ensures { result ≡ ascending list.now }
{
    list.is_sorted_by(|code, next| *code < *next)
}

// Whether a code needs no parent, or its parent is the last code before it with n = 0, group, or with t = n = 0, top.
fn stands_under(code: u32, top: u32, group: u32) -> bool
    ensures { result ≡ stands_under code top group }
{
    let n = code % OF_T;
    if 0 < n {
        let above = code - n;
        if above % OF_F == 0 {
            return true;
        }
        return above == group;
    }
    let parent = code - code % OF_S;
    if parent == code {
        return true;
    }
    if parent % OF_F == 0 {
        return true;
    }
    parent == top
}

// Whether each code of an ascending list has its parents in it. In such a list a code's parent is the last one before it with
// n = 0, or with t = n = 0 if the code itself has n = 0.
fn are_parented(list: &[u32]) -> bool
    requires { ascending list.now ≡ true }
    ensures { result ≡ all_parented list.now list.now }
{
    // 0 is no code, so no code's parent is looked for there
    let mut top = 0u32;
    let mut group = 0u32;
    for &code in list {
        if !stands_under(code, top, group) {
            return false;
        }
        if code % OF_T == 0 {
            group = code;
            if code % OF_S == 0 {
                top = code;
            }
        }
    }
    true
}

// The codes below a limit with which a list begins, and the others.
fn cut(list: &[u32], limit: u32) -> (&[u32], &[u32])
    ensures { (result.0.now ≡ run limit list.now) × (result.1.now ≡ from limit list.now) }
{
    list.split_at(list.iter().take_while(|code| **code < limit).count())
}

// Whether no SPar(2) of the same SPar(1) follows.
fn ends_par(list: &[u32]) -> bool
    ensures { result ≡ ends_par list.now }
{
    match list.first() {
        Some(code) => *code % OF_S == 0,
        None => true,
    }
}

// Whether a message of a type may have this list and NS: an ACK or a NAK has neither.
fn ends_there(kind: u8, list: &[u32], ns: &[u8]) -> bool
    ensures { result ≡ ends_there kind list.now ns.now }
{
    has_fields(kind) || (list.len() == 0 && ns.len() == 0)
}

// A list that is a meaning: codes of possible shapes, strictly ascending, each with its parents.
#[derive(Clone, Copy)]
struct Codes<'a> {
    list: &'a [u32],
    ghost shapes: { all_shaped list.now ≡ true },
    ghost up: { ascending list.now ≡ true },
    ghost parents: { all_parented list.now list.now ≡ true },
}

impl<'a> Codes<'a> {
    // Refusals 5 to 7.
    fn checked(list: &'a [u32]) -> Result<Codes<'a>, MessageWriteRefusal>
        ensures same { IfOk result (λ codes. codes.list.now ≡ list.now) }
        ensures refused { IfErr result (ListRefused list.now) }
    {
        if !are_shaped(list) {
            return Err(MessageWriteRefusal::BadCode);
        }
        if !is_ascending(list) {
            return Err(MessageWriteRefusal::NotAscending);
        }
        if !are_parented(list) {
            return Err(MessageWriteRefusal::NoParent);
        }
        Ok(Codes { list })
    }

    // Whether NS is well-formed and announced by code 1.0.0.7, or there is neither.
    fn ns_agrees(self, ns: &[u8]) -> bool
        ensures { result ≡ ns_agrees self.entry.list.now ns.now }
    {
        let announced = self.list.binary_search(&NON_STANDARD).is_ok();
        if ns.len() == 0 {
            return !announced;
        }
        if is_fine(ns_form(ns, 0)) {
            return announced;
        }
        false
    }
}

// A message that may be written, unless it is too long.
#[derive(Clone, Copy)]
struct Draft<'a> {
    // a type's number, since octet 1 has it as it is
    kind: u8,
    revision: u8,
    codes: Codes<'a>,
    ns: &'a [u8],
    ghost is_type: { known kind ≡ true },
    ghost low: { revision ≤ 15 },
}

impl<'a> Draft<'a> {
    // Refusals 3 to 9.
    fn checked(
        kind: u8,
        revision: u8,
        list: &'a [u32],
        ns: &'a [u8],
    ) -> Result<Draft<'a>, MessageWriteRefusal>
        ensures same { IfOk result (λ d. Drafts kind revision list.now ns.now d.kind d.revision d.codes.list.now d.ns.now) }
        ensures refused { IfErr result (DraftRefused kind revision list.now ns.now) }
    {
        if !is_known(kind) {
            return Err(MessageWriteRefusal::BadType);
        }
        if 15 < revision {
            return Err(MessageWriteRefusal::BadType);
        }
        let codes = Codes::checked(list)?;
        if !ends_there(kind, list, ns) {
            return Err(MessageWriteRefusal::NotEmpty);
        }
        if !codes.ns_agrees(ns) {
            return Err(MessageWriteRefusal::BadNs);
        }
        Ok(Draft {
            kind,
            revision,
            codes,
            ns,
        })
    }
}

// A sheet takes no octet more.
#[derive(Clone, Copy)]
struct Full;

// The octets of a message, put one behind the other: at most 64, in an array of that size, since there is no heap.
#[derive(Drop)]
struct Sheet {
    octets: [u8; 64],
    size: usize,
}

impl Model for Sheet {
    ghost use Rattle.std.specs.Prelude.{ℕ, List, take, ◌≤◌};

    ghost Value = { List ℕ };

    ghost view = { λ s. take s.size s.octets };

    ghost invariant = { λ s. s.size ≤ 64 };
}

impl Sheet {
    fn new() -> Sheet
        ensures { result ≡ [] }
    {
        Sheet {
            octets: [0; 64],
            size: 0,
        }
    }

    fn push(&mut self, octet: u8) -> Result<(), Full>
        ensures { Puts (octet ∷ []) self.old self.new result }
    {
        let size = self.size;
        if MOST_OCTETS <= size {
            return Err(Full);
        }
        self.octets[size] = octet;
        self.size = size + 1;
        Ok(())
    }

    // Sets bit 8 of the last octet.
    fn mark_last(&mut self)
        ensures { self.new ≡ marked self.old }
    {
        mark_last(&mut self.octets, self.size);
    }

    // Copies the octets to the front of an output, and says how many they are.
    fn send(&self, out: &mut [u8]) -> usize
        ensures count { (result ≡ length self.now) × (result ≤ most_octets) }
        ensures front { out.new ≡ over self.now out.old }
    {
        copy_front(&self.octets, self.size, out);
        self.size
    }

    // Passes octets of a block, count of them: the one at hand, and then such with nothing set.
    fn pass_octets(&mut self, octet: u8, count: u32) -> Result<(), Full>
        ensures { Puts (skipped count octet) self.old self.new result }
    {
        let mut next = octet;
        for _turn in 0..count {
            self.push(next)?;
            next = 0;
        }
        Ok(())
    }

    // Puts the minimal block of those codes of a list that stand a multiple of a step above a base.
    fn put_block(&mut self, list: &[u32], base: u32, step: u32, level: Level) -> Result<(), Full>
        requires { Between base (base + 512 * step) list.now × (0 < step) × (base + 512 * step < 4294967296) }
        ensures { Puts (block_octets (width_of level) (mark_of level) (positions step base list.now)) self.old self.new result }
    {
        let w = level.width();
        // the octet at hand: what it has so far, and the position below its first
        let mut octet = 0u8;
        let mut above = 0u32;
        for &code in list {
            let apart = code - base;
            if apart % step != 0 {
                continue;
            }
            let mut ahead = apart / step - above - 1;
            // most positions stand in the octet at hand, and need no division
            if w <= ahead {
                let count = ahead / w;
                self.pass_octets(octet, count)?;
                octet = 0;
                above += count * w;
                ahead -= count * w;
            }
            octet += 1u8 << ahead;
        }
        self.push(octet + level.mark())
    }

    // Puts SPar(2) of the codes behind a head's block, if the head is an SPar(1) and there is any.
    fn put_lower(&mut self, list: &[u32], head: u32) -> Result<(), Full>
        requires { Between head (field_base 3) list.now × (head < field_base 3) }
        ensures { Puts (lower_block head list.now) self.old self.new result }
    {
        if head % OF_S != 0 {
            return Ok(());
        }
        let (under, _) = cut(list, head + OF_S);
        if under.len() == 0 {
            return Ok(());
        }
        self.put_block(under, head, OF_T, Level::Low)
    }

    // Puts the Par(2) blocks of a field's codes, from its first SPar(1) on: head by head, each a code with something under it.
    fn put_pars(&mut self, list: &[u32]) -> Result<(), Full>
        requires { Between 0 (field_base 3) list.now }
        ensures { Puts (heads_from 0 list.now) self.old self.new result }
    {
        let mut rest = list;
        while let Some((head, behind)) = rest.split_first() {
            let (under, next) = cut(behind, *head + OF_T);
            self.put_block(under, *head, 1, Level::Low)?;
            self.put_lower(next, *head)?;
            if ends_par(next) {
                self.mark_last();
            }
            rest = next;
        }
        Ok(())
    }

    // Puts the field of the codes above a base.
    fn put_field(&mut self, list: &[u32], base: u32) -> Result<(), Full>
        requires { Between base (base + of_f) list.now × (base ≤ field_base 2) }
        ensures { Puts (field_put base list.now) self.old self.new result }
    {
        let (first, rest) = cut(list, base + OF_T);
        self.put_block(first, base, 1, Level::Top)?;
        self.put_block(rest, base, OF_S, Level::Top)?;
        self.put_pars(rest)
    }

    // Puts octets as they are.
    fn put_run(&mut self, run: &[u8]) -> Result<(), Full>
        ensures { Puts run.now self.old self.new result }
    {
        for &octet in run {
            self.push(octet)?;
        }
        Ok(())
    }

    // Puts I, S and NS.
    fn put_fields(&mut self, codes: Codes, ns: &[u8]) -> Result<(), Full>
        ensures { Puts (fields_put codes.entry.list.now ns.now) self.old self.new result }
    {
        let (first, second) = cut(codes.list, STANDARD);
        self.put_field(first, IDENTIFICATION)?;
        self.put_field(second, STANDARD)?;
        self.put_run(ns)
    }

    // Puts octet 1, and the fields where the type has any.
    fn put_message(&mut self, m: Draft) -> Result<(), Full>
        ensures { Puts (message_octets m.entry.kind m.entry.revision m.entry.codes.list.now m.entry.ns.now) self.old self.new result }
    {
        self.push(m.revision * 16 + m.kind)?;
        if has_fields(m.kind) {
            return self.put_fields(m.codes, m.ns);
        }
        Ok(())
    }
}

// The message writer: the message of a type, a revision, an ascending list of codes with their parents, and NS, in minimal form.
pub fn write_message(
    kind: u8,
    revision: u8,
    list: &[u32],
    ns: &[u8],
    out: &mut [u8],
) -> Result<usize, MessageWriteRefusal>
    ensures { MessageWrites kind revision list.now ns.now out.old result out.new }
{
    if out.len() < MOST_OCTETS {
        return Err(MessageWriteRefusal::BadLent);
    }
    let draft = Draft::checked(kind, revision, list, ns)?;
    let mut sheet = Sheet::new();
    match sheet.put_message(draft) {
        Ok(()) => Ok(sheet.send(out)),
        Err(Full) => Err(MessageWriteRefusal::TooLong),
    }
}
