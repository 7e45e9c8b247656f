// Operations 3, 4 and 5: the message reader, the message writer and striking. Each takes other pieces of a request, in its own order.
use message::Message;
use wire::{RUN_LIMIT, Reply, Request};

// The most numbers of a list.
const LIST_LIMIT: usize = 512;

// What each number of a lent list starts as.
const UNTOUCHED: u32 = 0xDEADBEEF;

// Request: room u16, message. Reply: no u8, type u8, revision u8, count u16, NS place u16, NS length
// u16, then the room's numbers, u32 each.
pub(crate) fn message_reader(mut request: Request<'_>) -> Option<Reply> {
    let count = request.u16()? as usize;
    let message = request.run(RUN_LIMIT)?;
    request.end()?;
    let mut room = [UNTOUCHED; LIST_LIMIT];
    let list = room.get_mut(..count)?;
    let mut reply = match message::read_message(message, list) {
        Ok(read) => head_of_message(read),
        Err(refusal) => head_of_refusal(refusal as u8),
    };
    for number in list.iter() {
        reply.put_u32(*number);
    }
    Some(reply)
}

fn head_of_message(read: Message) -> Reply {
    let ns = read.ns;
    let mut reply = Reply::new(0);
    reply.put_u8(read.kind);
    reply.put_u8(read.revision);
    reply.put_count(read.count);
    reply.put_count(ns.at);
    reply.put_count(ns.length);
    reply
}

// Zeros for what there is not.
fn head_of_refusal(number: u8) -> Reply {
    let mut reply = Reply::new(number);
    reply.put(&[0; 8]);
    reply
}

// Request: type u8, revision u8, count u16, that many u32, NS, out. Reply: no u8, octets u16, out.
pub(crate) fn message_writer(mut request: Request<'_>) -> Option<Reply> {
    let kind = request.u8()?;
    let revision = request.u8()?;
    let count = request.u16()? as usize;
    let mut numbers = [0; LIST_LIMIT];
    let list = numbers.get_mut(..count)?;
    for number in list.iter_mut() {
        *number = request.u32()?;
    }
    let ns = request.run(RUN_LIMIT)?;
    let mut room = [0; RUN_LIMIT];
    let out = request.buffer(&mut room)?;
    request.end()?;
    let written = writer::write_message(kind, revision, list, ns, out);
    Some(Reply::with_buffer(written.map_err(|refusal| refusal as u8), out))
}

// Request: message, out. Reply: no u8, octets u16, out.
pub(crate) fn striking(mut request: Request<'_>) -> Option<Reply> {
    let message = request.run(RUN_LIMIT)?;
    let mut room = [0; RUN_LIMIT];
    let out = request.buffer(&mut room)?;
    request.end()?;
    let struck = strike::strike_message(message, out);
    Some(Reply::with_buffer(struck.map_err(|refusal| refusal as u8), out))
}
