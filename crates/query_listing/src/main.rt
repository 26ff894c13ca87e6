// Test program: replays a log from standard input, and after each call prints what the queries answer for every
// processor and one past the last: its number, state, direct waits and reach; then the bytes of the whole board's list,
// and those of a scratch after a reach. Its output is compared with another program's.
#![tactic(auto)]

mod answers;

use answers::Answers;
use listings::line_size;
use log_input::{due_size, tell};
use logs::{CALL_COUNT_BYTES, RECORD_BYTES};
use probe_io::Input;
use replay::{Opened, RanBlock};
use rules::{Board, State};
use std::io;
use std::io::{Stdin, Write};

// More than the longest line of a listing.
const LINE_ROOM: usize = 256;

// More than a call's line and the answers after it.
const PAGE_ROOM: usize = 2048;

// Writes the first bytes of `out`, so many.
fn print_front(rt: &HostRuntime, out: &[u8], size: usize) {
    let _ = rt.write_all(&out[..size.min(out.len())]);
}

// One call: its line, and the answers after it unless its refusal ends the replay. Both are written at once, so that a
// reader who leaves or is slow never gets a call without its answers.
fn print_call(rt: &HostRuntime, board: &Board, state: State, bytes: &[u8]) -> RanBlock {
    let mut page = [0; PAGE_ROOM];
    let ran = replay::run(*board, state, 1, bytes, &mut page);
    let mut rest = &mut page[ran.written.min(PAGE_ROOM)..];
    if !ran.ended {
        let answers = Answers {
            board,
            state: &ran.state,
        };
        let _ = write!(rest, "{answers}");
    }
    let size = PAGE_ROOM.saturating_sub(rest.len());
    print_front(rt, &page, size);
    ran
}

// After the calls that are there: the line of the fault at the log's end, if there is one.
fn print_end(rt: &HostRuntime, left: u16, bytes: &[u8]) {
    let mut out = [0; LINE_ROOM];
    let line = replay::finish(left, bytes, &mut out);
    print_front(rt, &out, line_size(line));
}

// The calls, one by one as they arrive, up to the first that is refused or is not whole.
fn print_calls(
    rt: &HostRuntime,
    input: &mut Input<Stdin>,
    opened: Opened,
    calls: u16,
) -> io::Result<()> {
    let mut state = opened.state;
    for done in 0..calls {
        let left = calls - done;
        if input.unread().len() < RECORD_BYTES {
            print_end(rt, left, input.unread());
            return Ok(());
        }
        let ran = print_call(rt, &opened.board, state, input.unread());
        if ran.ended {
            return Ok(());
        }
        state = ran.state;
        input.advance(RECORD_BYTES, due_size(left - 1))?;
    }
    print_end(rt, 0, input.unread());
    Ok(())
}

// The plan, the call count and the calls. A read that fails ends the listing, and so does a refusal, whose line is the
// last.
fn list(rt: &HostRuntime, input: &mut Input<Stdin>) -> io::Result<()> {
    let mut out = [0; LINE_ROOM];
    input.read_plan()?;
    let begun = replay::begin(input.unread(), &mut out);
    print_front(rt, &out, line_size(begun.line));
    let Ok(opened) = begun.plan else {
        return Ok(());
    };
    input.advance(opened.bytes, CALL_COUNT_BYTES)?;
    let counted = replay::count(input.unread(), &mut out);
    print_front(rt, &out, line_size(counted.line));
    let Ok(calls) = counted.calls else {
        return Ok(());
    };
    input.advance(CALL_COUNT_BYTES, due_size(calls))?;
    print_calls(rt, input, opened, calls)
}

fn main(rt: HostRuntime) {
    let mut input = Input::new(rt.stdin());
    if let Err(reason) = list(&rt, &mut input) {
        tell(&rt, "query_listing: standard input", Some(reason));
    }
}
