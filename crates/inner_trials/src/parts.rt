// Operations 36 and 37: NS as a part of a message.
use message::{Message, MessageReadRefusal, Span};
use wire::{RUN_LIMIT, Reply, Request};

// The numbers that the message reader has to be lent.
const LIST_ROOM: usize = 448;

// Request: message. Reply: no u8, the NS that the message reader tells of.
pub(crate) fn ns_read(mut request: Request<'_>) -> Option<Reply> {
    let message = request.run(RUN_LIMIT)?;
    request.end()?;
    let mut list = [0; LIST_ROOM];
    let read = message::read_message(message, &mut list);
    Some(reply_of_part(message, read))
}

// Request: message, no u8 (0 to 4), place u64, length u64. Reply: no u8, the NS by an answer with this number that says of NS that it has
// this place and length.
pub(crate) fn ns_made_up(mut request: Request<'_>) -> Option<Reply> {
    let message = request.run(RUN_LIMIT)?;
    let number = request.u8()?;
    let at = request.u64()? as usize;
    let length = request.u64()? as usize;
    request.end()?;
    let read = made_up(number, Span { at, length })?;
    Some(reply_of_part(message, read))
}

// The message reader's answer with a number.
fn made_up(number: u8, ns: Span) -> Option<Result<Message, MessageReadRefusal>> {
    match number {
        0 => Some(Ok(Message {
            kind: 1,
            revision: 0,
            count: 0,
            ns,
        })),
        1 => Some(Err(MessageReadRefusal::BadLent)),
        2 => Some(Err(MessageReadRefusal::BadSize)),
        3 => Some(Err(MessageReadRefusal::UnknownType)),
        4 => Some(Err(MessageReadRefusal::Malformed)),
        _ => None,
    }
}

fn reply_of_part(message: &[u8], read: Result<Message, MessageReadRefusal>) -> Reply {
    let mut reply = Reply::new(read.err().map_or(0, |refusal| refusal as u8));
    reply.put_run(message::ns_part(message, read));
    reply
}
