// Test program: reads a plan from standard input, and then operations on a register block, 3 bytes each: 0 to read or 1
// to write, the offset, and the value, which is 0 for a read. Prints a line for each: `r OFFSET VALUE` or `w OFFSET
// VALUE`, with `refused 18` if it is refused, and the bytes of the block after it. It ends at the end of the input, or
// at bytes that are not an operation. Its output is compared with another program's.
#![tactic(auto)]

mod driver;

use driver::Driver;
use log_input::tell;
use probe_io::{Hex, Input, Refused};
use std::io;
use std::io::Stdin;

// The bytes of an operation.
const OPERATION: usize = 3;

#[derive(Clone, Copy)]
enum Operation {
    Read { offset: u8 },
    Write { offset: u8, value: u8 },
}

// The operation at the start of the input, if there is one.
fn operation_in(bytes: &[u8]) -> Option<Operation> {
    match *bytes {
        [0, offset, 0, ..] => Some(Operation::Read { offset }),
        [1, offset, value, ..] => Some(Operation::Write { offset, value }),
        _ => None,
    }
}

// Carries out an operation, and prints it with the block after it.
fn operate(rt: &HostRuntime, driver: &mut Driver, operation: Operation) -> io::Result<()> {
    match operation {
        Operation::Read { offset } => {
            let block = Hex(&driver.block.bytes);
            match driver.read(offset) {
                Ok(value) => println!(rt; "r {offset} {value} {block}"),
                Err(refusal) => println!(rt; "r {offset} {} {block}", Refused(refusal)),
            }
        }
        Operation::Write { offset, value } => {
            let verdict = driver.write(offset, value);
            let block = Hex(&driver.block.bytes);
            match verdict {
                Ok(()) => println!(rt; "w {offset} {value} {block}"),
                Err(refusal) => println!(rt; "w {offset} {value} {} {block}", Refused(refusal)),
            }
        }
    }
}

// A proved loop must end, and nothing states that the input does. So the loop counts its turns, up to a number that no
// run reaches.
fn operate_all(rt: &HostRuntime, input: &mut Input<Stdin>, driver: &mut Driver) -> io::Result<()> {
    for _ in 0..u64::MAX {
        match operation_in(input.unread()) {
            None => break,
            Some(operation) => {
                let _ = operate(rt, driver, operation);
            }
        }
        input.advance(OPERATION, OPERATION)?;
    }
    Ok(())
}

// The plan, and then the operations. A read that fails ends it.
fn list(rt: &HostRuntime, input: &mut Input<Stdin>) -> io::Result<()> {
    input.read_plan()?;
    let opened = plan_bytes::read(input.unread()).and_then(|read| boards::fresh_of(read.plan).map(
        |fresh| (read.bytes, fresh),
    ));
    match opened {
        Ok((bytes, fresh)) => {
            input.advance(bytes, OPERATION)?;
            operate_all(rt, input, &mut Driver::new(fresh))
        }
        Err(refusal) => {
            let _ = println!(rt; "{}", Refused(refusal));
            Ok(())
        }
    }
}

fn main(rt: HostRuntime) {
    let mut input = Input::new(rt.stdin());
    if let Err(reason) = list(&rt, &mut input) {
        tell(&rt, "register_listing: standard input", Some(reason));
    }
}
