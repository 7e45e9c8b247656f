// Numbers, runs and buffers as they stand in a request and in a reply: a number lowest octet first,
// a run or a buffer as its length (a number of two octets) and its octets.
//
// The pieces of a request are read one after the other. A piece that the request does not hold whole, or that is longer than its limit, is
// none, and then the request is none. A reply has room for the longest there is; what is put behind that is not in it.
#![tactic(auto)]

ghost use Rattle.std.specs.Prelude.{◌≤◌};

// The most octets of a run or buffer.
pub const RUN_LIMIT: usize = 255;

// Room for the longest reply.
const REPLY_LIMIT: usize = 4096;

// What there still is to be read of a request.
#[derive(Drop)]
pub struct Request<'a> {
    rest: &'a [u8],
}

impl<'a> Request<'a> {
    pub fn new(octets: &'a [u8]) -> Request<'a> {
        Request { rest: octets }
    }

    // The octets of the next number.
    fn number<const N: usize>(&mut self) -> Option<[u8; N]> {
        let (octets, rest) = self.rest.split_first_chunk::<N>()?;
        self.rest = rest;
        Some(*octets)
    }

    // One method for each width: the width of an array is a constant, which is not computed from a type.
    pub fn u8(&mut self) -> Option<u8> {
        Some(u8::from_le_bytes(self.number()?))
    }

    pub fn u16(&mut self) -> Option<u16> {
        Some(u16::from_le_bytes(self.number()?))
    }

    pub fn u32(&mut self) -> Option<u32> {
        Some(u32::from_le_bytes(self.number()?))
    }

    pub fn u64(&mut self) -> Option<u64> {
        Some(u64::from_le_bytes(self.number()?))
    }

    // A number of one octet, 0 or 1.
    pub fn flag(&mut self) -> Option<bool> {
        match self.u8()? {
            0 => Some(false),
            1 => Some(true),
            _ => None,
        }
    }

    pub fn run(&mut self, limit: usize) -> Option<&'a [u8]> {
        let length = self.u16()? as usize;
        if limit < length {
            return None;
        }
        let (octets, rest) = self.rest.split_at_checked(length)?;
        self.rest = rest;
        Some(octets)
    }

    // A buffer as it is lent: the octets of a run, in this room.
    pub fn buffer<'b>(&mut self, room: &'b mut [u8; RUN_LIMIT]) -> Option<&'b mut [u8]> {
        let octets = self.run(RUN_LIMIT)?;
        let buffer = room.get_mut(..octets.len())?;
        buffer.copy_from_slice(octets);
        Some(buffer)
    }

    // A request ends with its last piece.
    pub fn end(&self) -> Option<()> {
        if self.rest.is_empty() { Some(()) } else { None }
    }
}

#[derive(Drop)]
pub struct Reply {
    octets: [u8; REPLY_LIMIT],
    length: usize,
    ghost within: { length ≤ 4096 },
}

impl Reply {
    // A reply that begins with the rules' number.
    pub fn new(number: u8) -> Reply {
        let mut reply = Reply {
            octets: [0; REPLY_LIMIT],
            length: 0,
        };
        reply.put_u8(number);
        reply
    }

    // The reply of most operations: no u8, count u16, the lent buffer. The answer is a count of octets or bits, or the number of a refusal.
    pub fn with_buffer(answer: Result<usize, u8>, buffer: &[u8]) -> Reply {
        let (number, count) = match answer {
            Ok(count) => (0, count),
            Err(number) => (number, 0),
        };
        let mut reply = Reply::new(number);
        reply.put_count(count);
        reply.put_run(buffer);
        reply
    }

    pub fn octets(&self) -> &[u8] {
        &self.octets[..self.length]
    }

    pub fn put(&mut self, octets: &[u8]) {
        let count = octets.len().min(REPLY_LIMIT - self.length);
        let end = self.length + count;
        self.octets[self.length..end].copy_from_slice(&octets[..count]);
        self.length = end;
    }

    pub fn put_u8(&mut self, number: u8) {
        self.put(&[number]);
    }

    // A count or a place, of two octets.
    pub fn put_count(&mut self, number: usize) {
        self.put(&number.to_le_bytes()[..2]);
    }

    pub fn put_u32(&mut self, number: u32) {
        self.put(&number.to_le_bytes());
    }

    pub fn put_u64(&mut self, number: u64) {
        self.put(&number.to_le_bytes());
    }

    // Octets behind their length.
    pub fn put_run(&mut self, octets: &[u8]) {
        self.put_count(octets.len());
        self.put(octets);
    }
}
