// The wishes as records of their run, one after the other from its front; nothing of it is held.
ghost use Rattle.std.specs.Prelude.{◌≡◌};
ghost use Rattle.std.specs.Iterator.{YieldsFirstBy, item_count};
ghost use Rattle.choice.specs.Inner.{found_of, found_left, found_in};
ghost use Rattle.choice.specs.Wishes.{most_wishes};

// The most wishes.
const MOST_WISHES: usize = 16;

// A record: its flag, its standard field, and the octets of the run behind it.
#[derive(Clone, Copy)]
pub(crate) struct Record<'a> {
    // the octet as it stands: `is_good_record` judges what is above 1 bad, and choosing takes any but 1 as not ready
    pub(crate) flag: u8,
    pub(crate) field: &'a [u8],
    pub(crate) behind: &'a [u8],
}

// The whole records that a run begins with, so many of them at most.
#[derive(Drop)]
pub(crate) struct Records<'a> {
    rest: &'a [u8],
    left: usize,
}

impl<'a> Records<'a> {
    // Those that a run of wishes begins with.
    pub(crate) fn of(run: &'a [u8]) -> Records<'a>
        ensures { found_left result ≡ found_in most_wishes run.now }
    {
        Records {
            rest: run,
            left: MOST_WISHES,
        }
    }
}

impl<'a> Iterator for Records<'a> {
    type Item = Record<'a>;

    ghost next_gives = { YieldsFirstBy found_of found_left };

    ghost remaining = { item_count found_left };

    fn next(&mut self) -> Option<Record<'a>> {
        if self.left == 0 {
            return None;
        }
        let [flag, size, rest @ ..] = self.rest else {
            return None;
        };
        let size = usize::from(*size);
        if rest.len() < size {
            return None;
        }
        let (field, behind) = rest.split_at(size);
        self.left -= 1;
        self.rest = behind;
        Some(Record {
            flag: *flag,
            field,
            behind,
        })
    }
}
