// The probe: a program by which any other puts the operations to the test. Standard input is a row
// of requests and standard output a row of replies, one for each request, in order. Both have the
// form of a run (the crate `wire`). A request is the octet of its operation and the pieces that this takes.
#![tactic(auto)]

mod stations;

use std::io;
use std::io::{ErrorKind, Read, Write};
use wire::{Reply, Request};

// The octets of the longest request.
const REQUEST_LIMIT: usize = 65535;

// The reply to what is no request.
const NO_REQUEST: u8 = 255;

// Has the request's operation carried out.
fn carry_out(octets: &[u8]) -> Option<Reply> {
    let mut request = Request::new(octets);
    match request.u8()? {
        6 => stations::station_step(request),
        operation @ 0..32 => trials::carry_out(operation, request),
        operation => inner_trials::carry_out(operation, request),
    }
}

// Writes a reply behind its length.
fn write_reply(output: &mut impl Write, reply: Reply) -> io::Result<()> {
    let octets = reply.octets();
    output.write_all(&octets.len().to_le_bytes()[..2])?;
    output.write_all(octets)
}

// Fills the octets from the input. False where the input ends before.
fn fill(input: &mut impl Read, octets: &mut [u8]) -> io::Result<bool> {
    match input.read_exact(octets) {
        Ok(()) => Ok(true),
        Err(error) if error.kind() == ErrorKind::UnexpectedEof => Ok(false),
        Err(error) => Err(error),
    }
}

// Reads a request and writes its reply. False where the input ends before the request does.
fn serve_one(input: &mut impl Read, output: &mut impl Write) -> io::Result<bool> {
    let mut head = [0; 2];
    if !fill(input, &mut head)? {
        return Ok(false);
    }
    let length = u16::from_le_bytes(head) as usize;
    let mut octets = [0; REQUEST_LIMIT];
    let request = &mut octets[..length];
    if !fill(input, request)? {
        return Ok(false);
    }
    let reply = carry_out(request).unwrap_or_else(|| Reply::new(NO_REQUEST));
    write_reply(output, reply)?;
    Ok(true)
}

// Serves to the end of the input, or until the output takes no more, which is an error. A proved loop has to end, and nothing says that
// the input does: so the turns are counted, to a number that no input uses up.
fn main(rt: HostRuntime) -> io::Result<()> {
    let mut input = rt.stdin();
    let mut output = rt.stdout();
    for _ in 0..u64::MAX {
        if !serve_one(&mut input, &mut output)? {
            break;
        }
    }
    Ok(())
}
