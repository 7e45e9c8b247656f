// Operations 1 and 2: the frame reader and the frame writer. Each takes other pieces of a request, in its own order.
use wire::{RUN_LIMIT, Reply, Request};

// Request: bits u32, run, out. Reply: no u8, octets u16, out.
pub(crate) fn frame_reader(mut request: Request<'_>) -> Option<Reply> {
    let bits = request.u32()?;
    let run = request.run(RUN_LIMIT)?;
    let mut room = [0; RUN_LIMIT];
    let out = request.buffer(&mut room)?;
    request.end()?;
    let read = frame::read_frame(run, bits as usize, out);
    Some(Reply::with_buffer(read.map_err(|refusal| refusal as u8), out))
}

// Request: opening u8, closing u8, info, out. Reply: no u8, bits u16, out.
pub(crate) fn frame_writer(mut request: Request<'_>) -> Option<Reply> {
    let opening = request.u8()?;
    let closing = request.u8()?;
    let info = request.run(RUN_LIMIT)?;
    let mut room = [0; RUN_LIMIT];
    let out = request.buffer(&mut room)?;
    request.end()?;
    let written = frame::write_frame(info, opening as usize, closing as usize, out);
    Some(Reply::with_buffer(written.map_err(|refusal| refusal as u8), out))
}
