// Operations 32 to 35: own table and wishes, choice and verdict. Each takes other pieces of a request, in its own order.
use choice::Pick;
use wire::{RUN_LIMIT, Reply, Request};

// The octets of sixteen wishes, each as long as its length can say.
const WISHES_LIMIT: usize = 4112;

// The number of a choice that finds nothing.
const NOTHING_TO_PROPOSE: u8 = 11;

// Request: own table, wishes. Reply: no u8.
pub(crate) fn check_tables(mut request: Request<'_>) -> Option<Reply> {
    let own = request.run(RUN_LIMIT)?;
    let wishes = request.run(WISHES_LIMIT)?;
    request.end()?;
    let refusal = choice::check_tables(own, wishes).err();
    Some(Reply::new(refusal.map_or(0, |refusal| refusal as u8)))
}

// Request: wishes. Reply: no u8, wish u8, and the place and the length of its field, u16 each.
pub(crate) fn first_ready(mut request: Request<'_>) -> Option<Reply> {
    let wishes = request.run(WISHES_LIMIT)?;
    request.end()?;
    Some(reply_of_choice(choice::first_ready(wishes)))
}

// Request: own table, wishes, far octets, place of their standard field u8. Reply: as without far octets.
pub(crate) fn first_common(mut request: Request<'_>) -> Option<Reply> {
    let own = request.run(RUN_LIMIT)?;
    let wishes = request.run(WISHES_LIMIT)?;
    let far = request.run(RUN_LIMIT)?;
    let place = request.u8()?;
    request.end()?;
    Some(reply_of_choice(choice::first_common(own, wishes, far, place as usize)))
}

fn reply_of_choice(choice: Option<Pick>) -> Reply {
    match choice {
        Some(pick) => reply_of_pick(pick),
        None => reply_of_none(),
    }
}

fn reply_of_pick(pick: Pick) -> Reply {
    let mut reply = Reply::new(0);
    reply.put(&pick.number.to_le_bytes()[..1]);
    reply.put_count(pick.at);
    reply.put_count(pick.length);
    reply
}

// Zeros for what there is not.
fn reply_of_none() -> Reply {
    let mut reply = Reply::new(NOTHING_TO_PROPOSE);
    reply.put(&[0; 5]);
    reply
}

// Request: wishes, far octets, place of their standard field u8. Reply: no u8, the NAK's number.
pub(crate) fn judge_mode(mut request: Request<'_>) -> Option<Reply> {
    let wishes = request.run(WISHES_LIMIT)?;
    let far = request.run(RUN_LIMIT)?;
    let place = request.u8()?;
    request.end()?;
    let refusal = choice::judge_mode(wishes, far, place as usize).err();
    Some(Reply::new(refusal.map_or(0, |refusal| refusal as u8)))
}
