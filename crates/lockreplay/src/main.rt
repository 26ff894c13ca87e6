// `lockreplay` reads a log from standard input and writes its listing to standard output. It is a thin loop over
// `log_input` and `replay`: no contract can state what is read or written, so the work is done there, on slices.
// `whole_listing/specs/Arrivals.antt` defines the same turns over the same buffers, and they are proved to give the
// listing.
#![tactic(auto)]

ghost use Rattle.std.specs.Prelude.{◌≤◌, length, IfOk};
ghost use Rattle.encoding.specs.Buffers.{outcome_as_numbers};

use listings::line_size;
use log_input::{Fed, bring_to_front, copy_in, due_size, fill_plan, fill_to, tell};
use logs::{CALL_COUNT_BYTES, RECORD_BYTES};
use refusals::Refusal;
use replay::{Opened, RanBlock, begin, count, finish, run};
use rules::{Board, State};
use std::env::{Env, FillError};
use std::io;
use std::io::Stdin;
use whole_listing::{BLOCK_ROOM, LINES_ROOM, PLAN_ROOM};

// The system and standard input.
#[derive(Drop)]
struct Streams {
    rt: HostRuntime,
    input: Stdin,
}

// Reads what is needed after the bytes at hand. If a read fails, standard error says why.
fn feed(streams: &mut Streams, block: &mut [u8], have: usize, needed: usize) -> Fed
    ensures { result.have ≤ length block.new }
{
    let fed = fill_to(&mut streams.input, block, have, needed);
    tell(&streams.rt, "lockreplay: standard input", fed.failure);
    fed
}

// Writes all of the bytes, or stops at the first write that takes nothing or fails.
fn write_whole(rt: &HostRuntime, bytes: &[u8]) -> io::Result<()> {
    let mut rest = bytes;
    while !rest.is_empty() {
        let taken = rt.write_some(rest)?;
        if taken == 0 {
            return Err(io::Error::from(io::ErrorKind::WriteZero));
        }
        rest = &rest[taken..];
    }
    Ok(())
}

// Writes the line at the start of `out`, if there is one.
fn show(rt: &HostRuntime, line: Result<usize, Refusal>, out: &[u8]) -> io::Result<()>
    requires { (outcome_as_numbers line).value ≤ length out.now }
{
    write_whole(rt, &out[..line_size(line)])
}

// Continues after the bytes that are used up. It waits for a record only if no whole one is in the block, and after the
// last call for any byte.
fn advance(streams: &mut Streams, block: &mut [u8], used: usize, have: usize, left: u16) -> Fed
    ensures { result.have ≤ length block.new }
{
    let rest = bring_to_front(block, used, have);
    feed(streams, block, rest, due_size(left))
}

// Carries out the calls that are whole in a block, and writes their lines.
fn run_block(
    rt: &HostRuntime,
    board: Board,
    state: State,
    left: u16,
    block: &[u8],
    out: &mut [u8],
) -> io::Result<RanBlock>
    ensures { IfOk result (λ ran. ran.calls ≤ left) }
{
    let ran = run(board, state, left, block, out);
    write_whole(rt, &out[..ran.written])?;
    Ok(ran)
}

// The calls after the call count, as they arrive. A block that carries out no call is the last: no call is left, or the
// input ended, or a read failed, which happens only if no call is whole in the block. After the last call that is there
// comes the line of the fault at the log's end, if there is one. A write that fails also ends the replay.
// Kept: how far the block is filled stays beside it, since the next bytes are read into the rest of it.
fn replay_calls(
    streams: &mut Streams,
    opened: Opened,
    calls: u16,
    block: &mut [u8],
    filled: usize,
    out: &mut [u8],
) -> io::Result<()> {
    let board = opened.board;
    let mut state = opened.state;
    let mut left = calls;
    let mut have = filled;
    let mut used = CALL_COUNT_BYTES;
    loop {
        let fed = advance(streams, block, used, have, left);
        have = fed.have;
        let ran = run_block(&streams.rt, board, state, left, &block[..have], out)?;
        if ran.ended | fed.failure.is_some() {
            return Ok(());
        }
        if ran.calls == 0 {
            break;
        }
        state = ran.state;
        left -= ran.calls;
        used = RECORD_BYTES * ran.calls as usize;
    }
    let line = finish(left, &block[..have], out);
    show(&streams.rt, line, out)
}

// After the plan: the call count, or the line of its fault, and then the calls. The bytes that were read with the plan
// are the next ones of the log.
fn replay_rest(
    streams: &mut Streams,
    opened: Opened,
    bytes: &[u8],
    block: &mut [u8],
    out: &mut [u8],
) -> io::Result<()> {
    let first = copy_in(bytes, block);
    let fed = feed(streams, block, first, CALL_COUNT_BYTES);
    if fed.failure.is_some() {
        return Ok(());
    }
    let counted = count(&block[..fed.have], out);
    show(&streams.rt, counted.line, out)?;
    match counted.calls {
        Ok(calls) => replay_calls(streams, opened, calls, block, fed.have, out),
        Err(_) => Ok(()),
    }
}

// A log from its plan on; its first bytes are there.
fn replay_log(
    streams: &mut Streams,
    plan: &[u8],
    block: &mut [u8],
    out: &mut [u8],
) -> io::Result<()> {
    let begun = begin(plan, out);
    show(&streams.rt, begun.line, out)?;
    match begun.plan {
        Ok(opened) => replay_rest(streams, opened, &plan[opened.bytes..], block, out),
        Err(_) => Ok(()),
    }
}

// Replays a log. The plan is read into a buffer of its own, which has room for the longest plan and begins as zeros;
// only the filled part is lent. If a read or a write fails, standard error says why.
fn replay(streams: &mut Streams) {
    let mut plan = [0u8; PLAN_ROOM];
    let mut block = [0u8; BLOCK_ROOM];
    let mut out = [0u8; LINES_ROOM];
    let fed = fill_plan(&mut streams.input, &mut plan);
    tell(&streams.rt, "lockreplay: standard input", fed.failure);
    if fed.failure.is_none() {
        let written = replay_log(streams, &plan[..fed.have], &mut block, &mut out);
        tell(&streams.rt, "lockreplay: standard output", written.err());
    }
}

fn help(rt: &HostRuntime) {
    let _ = rt.eprintln("usage: lockreplay < LOG");
    let _ = rt.eprintln(
        "Replays a log from standard input and writes its listing. It takes no arguments.",
    );
}

// Whether there is an argument, also an empty one. None of its bytes are looked at.
fn has_argument(rt: &HostRuntime) -> bool {
    !matches!(rt.arg(1, &mut []), Err(FillError::NotPresent))
}

// With an argument it prints the help and reads nothing, because it would not open a file of that name.
fn main(rt: HostRuntime) {
    if has_argument(&rt) {
        help(&rt);
    } else {
        let input = rt.stdin();
        let mut streams = Streams { rt, input };
        replay(&mut streams);
    }
}
