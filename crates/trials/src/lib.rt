// Operations 1 to 5 of the probe: each takes a request apart, calls an operation of the product and makes the reply of its answer. For
// tests alone.
#![tactic(auto)]

mod frames;
mod messages;

use wire::{Reply, Request};

// Has a request's operation carried out; no reply where it is none of these, or where the request is none.
// This is the table of the crate's operations, by their numbers.
pub fn carry_out(operation: u8, request: Request<'_>) -> Option<Reply> {
    match operation {
        1 => frames::frame_reader(request),
        2 => frames::frame_writer(request),
        3 => messages::message_reader(request),
        4 => messages::message_writer(request),
        5 => messages::striking(request),
        _ => None,
    }
}
