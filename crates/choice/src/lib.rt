// Own table, wishes, choice and verdict (RULES, Own table, wishes, choice). The wishes are a run of records, walked from its
// front; nothing of it is held.
#![tactic(auto)]

ghost use Rattle.std.specs.Prelude.{◌≡◌, ◌≤◌, length, leb};
ghost use Rattle.octets.specs.Places.{both};
ghost use Rattle.tree.specs.Fields.{all_in, codes_in};
ghost use Rattle.tree.specs.Wide.{codes_wide};
ghost use Rattle.choice.specs.Wishes.{most_wishes, standard_codes};
ghost use Rattle.choice.specs.Choosing.{common, suits, choice, choice_told};
ghost use Rattle.choice.specs.Promises.{TellsGood, ChecksTables, ChoosesReady, ChoosesCommon, JudgesMode};
ghost use Rattle.choice.specs.Inner.{wish_in, records_by, found_of, wish_of, far_told};

use judge::is_good_in;
use learn::NameSet;
use tree::{Field, has_spar};
use wishes::{Record, Records};
use within::{lies_within, lies_within_far};

mod judge;
mod learn;
mod wishes;

// Why an own table and wishes are refused, each with its number in the rules.
#[derive(Clone, Copy, Debug, PartialEq, Eq)]
pub enum TablesRefusal {
    BadOwn = 2,
    BadWishes = 3,
    Outside = 4,
}

// A wish that was chosen: its number, from 1, and where its standard field lies in the wishes' run.
#[derive(Clone, Copy, Debug, PartialEq, Eq)]
pub struct Pick {
    pub number: usize,
    pub at: usize,
    pub length: usize,
}

// Why a mode select is refused, each with the number of its NAK.
#[derive(Clone, Copy, Debug, PartialEq, Eq)]
pub enum ModeRefusal {
    NotReady = 2,
    NoFit = 3,
}

// A far list: its octets, and the place where its standard field begins.
#[derive(Clone, Copy)]
struct FarList<'a> {
    octets: &'a [u8],
    place: usize,
}

// Whether octets are a standard field that an own table or a wish may hold: named standard parameters only, in minimal form.
pub fn is_good(t: &[u8]) -> bool
    ensures { TellsGood t.now result }
{
    is_good_in(t, &NameSet::standard())
}

// Whether a record is good by the names: ready or not, with a good field that has at least one SPar(1).
fn is_good_record(wish: Record, names: &NameSet) -> bool
    ensures { result ≡ both (leb wish.entry.flag 1) (wish_in names.now.bits wish.entry.field.now) }
{
    wish.flag <= 1 && is_good_in(wish.field, names) && has_spar(wish.field, 0)
}

// Whether a run is good wishes by the names: at most 16 records, each good, and nothing behind the last.
fn are_good_wishes(run: &[u8], names: &NameSet) -> bool
    ensures { result ≡ records_by (wish_in names.now.bits) most_wishes run.now }
{
    let mut behind = run;
    for wish in Records::of(run) {
        if !is_good_record(wish, names) {
            return false;
        }
        behind = wish.behind;
    }
    behind.is_empty()
}

// The own table and the wishes: refusals 2, 3 and 4. Wishes are judged by the names of the own table; where one fails, all are judged
// again by the names of all standard parameters, to tell a bad wish from one outside the own table.
pub fn check_tables(own: &[u8], run: &[u8]) -> Result<(), TablesRefusal>
    ensures { ChecksTables own.now run.now result }
{
    let mut names = NameSet::standard();
    if !is_good_in(own, &names) {
        return Err(TablesRefusal::BadOwn);
    }
    names.learn(own);
    if are_good_wishes(run, &names) {
        return Ok(());
    }
    names.put_standard();
    if are_good_wishes(run, &names) {
        return Err(TablesRefusal::Outside);
    }
    Err(TablesRefusal::BadWishes)
}

// Whether all parameters of a wish's field are in both the own table and the far list.
fn is_common(own: &[u8], field: &[u8], far: FarList) -> bool
    ensures { result ≡ common (standard_codes own.now) (codes_wide Field.Standard far.entry.octets.now far.entry.place) (standard_codes field.now) }
{
    lies_within(field, 0, own, 0, Field::Standard)
        && lies_within_far(field, 0, far.octets, far.place, Field::Standard)
}

// Whether a wish may be proposed.
fn may_propose(own: &[u8], wish: Record, far: Option<FarList>) -> bool
    ensures { result ≡ suits (standard_codes own.now) (far_told far.entry) (wish_of (found_of wish.entry)) }
{
    wish.flag == 1 && far.is_none_or(|far| is_common(own, wish.field, far))
}

// The first wish that may be proposed.
fn choose(own: &[u8], run: &[u8], far: Option<FarList>) -> Option<Pick>
    ensures { choice_told result ≡ choice (standard_codes own.now) (far_told far.entry) run.now }
{
    let (before, wish) = Records::of(run)
        .enumerate()
        .find(|(_, wish)| may_propose(own, *wish, far))?;
    let length = wish.field.len();
    Some(Pick {
        number: before + 1,
        at: run.len() - wish.behind.len() - length,
        length,
    })
}

// The first ready wish: the choice where no far list was heard.
pub fn first_ready(run: &[u8]) -> Option<Pick>
    ensures { ChoosesReady run.now result }
{
    // with no far list, neither the own table nor the far octets are looked at
    choose(run, run, None)
}

// The first ready wish that is common to the own table and a far list, whose standard field begins at a place of its octets.
pub fn first_common(own: &[u8], run: &[u8], far: &[u8], place: usize) -> Option<Pick>
    ensures { ChoosesCommon own.now run.now far.now place result }
{
    choose(own, run, Some(FarList { octets: far, place }))
}

// Whether all parameters of a mode lie in a wish.
fn lies_in_wish(s: &[u8], place: usize, wish: Record) -> bool
    ensures { result ≡ all_in (codes_in Field.Standard s.now place) (standard_codes wish.entry.field.now) }
{
    lies_within(s, place, wish.field, 0, Field::Standard)
}

// The verdict on the standard field at a place of a mode select.
pub fn judge_mode(run: &[u8], s: &[u8], place: usize) -> Result<(), ModeRefusal>
    ensures { JudgesMode run.now s.now place result }
{
    if !has_spar(s, place) {
        return Err(ModeRefusal::NoFit);
    }
    if Records::of(run).any(|wish| wish.flag == 1 && lies_in_wish(s, place, wish)) {
        return Ok(());
    }
    if Records::of(run).any(|wish| lies_in_wish(s, place, wish)) {
        return Err(ModeRefusal::NotReady);
    }
    Err(ModeRefusal::NoFit)
}
