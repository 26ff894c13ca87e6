// What the queries answer, as text: a line for every processor and for one past the last, the bytes of the whole board's
// list, and those of a scratch after a reach. The buffers are filled with 170 first, and 16 bytes more of them are shown.
use board_list::list_size;
use plans::{MAX_PROCESSORS, mask_size};
use probe_io::{Hex, Refused};
use queries::{direct_waits, list_board, phase_of};
use reach::{MAX_SCRATCH_BYTES, reach, room_of};
use refusals::Refusal;
use rules::{Board, State};
use std::fmt;

// The processors that are asked for: all that have a place in a state, and one more.
const ASKED: u8 = MAX_PROCESSORS as u8 + 1;

// How many bytes of a buffer are shown after those that a query writes, and what a buffer is filled with.
const MARGIN: usize = 16;

const FILLER: u8 = 170;

// The sizes of the longest list and of the longest scratch, each with the bytes after it.
const LIST_ROOM: usize = 1 + 10 * MAX_PROCESSORS + MARGIN;

const SCRATCH_ROOM: usize = MAX_SCRATCH_BYTES + MARGIN;

// All answers after a call.
#[derive(Clone, Copy)]
pub struct Answers<'a> {
    pub board: &'a Board,
    pub state: &'a State,
}

// The line of a processor: its number, state, direct waits and reach, or the refusal.
#[derive(Clone, Copy)]
struct ProcessorLine<'a> {
    answers: Answers<'a>,
    processor: u8,
}

// A mask in two digits for each of its bytes, or the refusal.
#[derive(Clone, Copy)]
struct MaskShown {
    answer: Result<u32, Refusal>,
    digits: usize,
}

impl fmt::Display for MaskShown {
    fn fmt<W: fmt::Write>(&self, f: &mut fmt::Formatter<W>) -> fmt::Result {
        let digits = self.digits;
        match self.answer {
            Ok(mask) => write!(f, "{mask:0digits$x}"),
            Err(refusal) => write!(f, "{}", Refused(refusal)),
        }
    }
}

impl fmt::Display for ProcessorLine<'_> {
    fn fmt<W: fmt::Write>(&self, f: &mut fmt::Formatter<W>) -> fmt::Result {
        let processor = self.processor;
        let board = *self.answers.board;
        let state = *self.answers.state;
        let mut scratch = [0; MAX_SCRATCH_BYTES]; // enough, so that no reach is refused for its room
        let digits = 2 * mask_size(board.terms.processors);
        let direct = MaskShown {
            answer: direct_waits(board, state, processor),
            digits,
        };
        let reached = MaskShown {
            answer: reach(board, state, processor, &mut scratch),
            digits,
        };
        match phase_of(board, state, processor) {
            Ok(phase) => {
                let phase = u8::from(phase);
                writeln!(f, "{processor} {phase} {direct} {reached}")
            }
            Err(refusal) => writeln!(f, "{processor} {}", Refused(refusal)),
        }
    }
}

impl fmt::Display for Answers<'_> {
    fn fmt<W: fmt::Write>(&self, f: &mut fmt::Formatter<W>) -> fmt::Result {
        let processors = self.board.terms.processors;
        for processor in 0..ASKED {
            let line = ProcessorLine {
                answers: *self,
                processor,
            };
            write!(f, "{line}")?;
        }
        let mut list = [FILLER; LIST_ROOM];
        let shown = (list_size(processors) + MARGIN).min(LIST_ROOM);
        let _ = list_board(*self.board, *self.state, &mut list);
        writeln!(f, "board {}", Hex(&list[..shown]))?;
        let mut scratch = [FILLER; SCRATCH_ROOM];
        let shown = (room_of(processors) + MARGIN).min(SCRATCH_ROOM);
        let _ = reach(*self.board, *self.state, 0, &mut scratch);
        writeln!(f, "scratch {}", Hex(&scratch[..shown]))
    }
}
