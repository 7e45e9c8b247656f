// Operations 32 to 37 of the probe: what is reached only through other operations. For tests alone.
#![tactic(auto)]

mod choices;
mod parts;

use wire::{Reply, Request};

// Has a request's operation carried out; no reply where it is none of these, or where the request is none.
// This is the table of the crate's operations, by their numbers.
pub fn carry_out(operation: u8, request: Request<'_>) -> Option<Reply> {
    match operation {
        32 => choices::check_tables(request),
        33 => choices::first_ready(request),
        34 => choices::first_common(request),
        35 => choices::judge_mode(request),
        36 => parts::ns_read(request),
        37 => parts::ns_made_up(request),
        _ => None,
    }
}
