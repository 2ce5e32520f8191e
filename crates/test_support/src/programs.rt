//! Runs of a program whose streams do as little as they may and fail at any of their calls, and how each is to end.
use crate::runs::{End, Streams};
use crate::streams::{Failing, Flow};
use std::alloc::{AllocError, Global};
use std::io::ErrorKind;

/// How many bytes of a script's output are written at once.
pub const PIECE: usize = 65_536;

/// A text of so many bytes is not tried behind each of them.
const LONG: usize = 1_000;

/// How far apart those bytes of a long text are that are tried wherever its pieces end.
const APART: usize = 50_000;

/// Whether a stream of so many bytes is to fail behind these: of a long text, on either side of the end of a piece, and here and there.
fn is_tried(bytes: usize, all: usize) -> bool {
    all < LONG || bytes.wrapping_add(1) % PIECE <= 2 || bytes % APART == LONG
}

/// Takes three bytes at a time, and has room for so many, as on a full disk.
fn with_room(bytes: usize) -> Flow {
    Flow {
        most: 3,
        failing: Failing::Full(bytes, ErrorKind::StorageFull),
    }
}

/// The ways in which a stream fails behind so many bytes: the call for the next one fails, for want of memory too, or takes nothing; or there is no more room.
fn failures_behind(bytes: usize) -> [Flow; 4] {
    let number = bytes as u64;
    [
        Flow::bytewise(Failing::At(number, ErrorKind::BrokenPipe)),
        Flow::bytewise(Failing::At(number, ErrorKind::OutOfMemory)),
        Flow::bytewise(Failing::TakesNothing(number)),
        with_room(bytes),
    ]
}

/// How a read fails, and the fault that is told of it.
static READS: [(ErrorKind, &str); 3] = [
    (ErrorKind::BrokenPipe, "input failed\n"),
    (ErrorKind::WouldBlock, "input failed\n"),
    (ErrorKind::OutOfMemory, "no memory\n"),
];

/// How the streams of a run move, and how it is to end.
#[derive(Clone, Copy)]
pub struct Run<'a> {
    /// How the streams move.
    pub streams: Streams,
    /// How the run ends.
    pub end: End<'a>,
}

impl<'a> Run<'a> {
    /// The runs of which each stream moves a byte at a time, whether or not each second call is to be tried again; the one whose output has just enough room; and those of which a stream fails: at each of so many reads, or behind any byte of its output or of its fault.
    ///
    /// # Errors
    ///
    /// Where there is no memory for them.
    pub fn failing(self, alloc: Global, reads: usize) -> Result<Vec<Run<'a>>, AllocError> {
        let mut runs = Vec::new(alloc);
        for failing in [Failing::Never, Failing::Interrupted] {
            let flow = Flow::bytewise(failing);
            let streams = Streams {
                input: if reads == 0 { self.streams.input } else { flow },
                output: flow,
                faults: flow,
            };
            runs.push(Run { streams, ..self })?;
        }
        let streams = Streams {
            output: with_room(self.end.output.len()),
            ..self.streams
        };
        runs.push(Run { streams, ..self })?;
        self.add_reads(reads, &mut runs)?;
        self.add_writes(&mut runs)?;
        self.add_faults(&mut runs)?;
        Ok(runs)
    }

    /// Adds the runs of which a read fails, each in three ways. They print nothing.
    fn add_reads(self, reads: usize, runs: &mut Vec<Run<'a>>) -> Result<(), AllocError> {
        for number in 0..reads {
            if is_tried(number, reads) {
                for (kind, told) in READS.iter() {
                    let input = Flow::bytewise(Failing::At(number as u64, *kind));
                    runs.push(Run {
                        streams: Streams {
                            input,
                            ..self.streams
                        },
                        end: End::fault(3, *told),
                    })?;
                }
            }
        }
        Ok(())
    }

    /// The run whose output moves so, and fails with so much of it written.
    fn failed_write(self, output: Flow, written: &'a [u8]) -> Run<'a> {
        Run {
            streams: Streams {
                output,
                ..self.streams
            },
            end: End {
                status: 3,
                output: written,
                faults: b"output failed\n",
            },
        }
    }

    /// Adds the runs of which a write or the flush of the output fails, and of one of them those that cannot tell it.
    fn add_writes(self, runs: &mut Vec<Run<'a>>) -> Result<(), AllocError> {
        let output = self.end.output;
        for bytes in 0..output.len() {
            if is_tried(bytes, output.len()) {
                for flow in failures_behind(bytes) {
                    runs.push(self.failed_write(flow, &output[..bytes]))?;
                }
            }
        }
        if self.end.status == 0 {
            runs.push(self.failed_write(Flow::bytewise(Failing::AtFlush), output))?;
            let first = Flow::bytewise(Failing::At(0, ErrorKind::BrokenPipe));
            self.failed_write(first, b"").add_faults(runs)?;
        }
        Ok(())
    }

    /// Adds the runs that cannot tell the whole fault. They end with the same status.
    fn add_faults(self, runs: &mut Vec<Run<'a>>) -> Result<(), AllocError> {
        let told = self.end.faults;
        for bytes in 0..told.len() {
            for faults in failures_behind(bytes) {
                runs.push(Run {
                    streams: Streams {
                        faults,
                        ..self.streams
                    },
                    end: End {
                        faults: &told[..bytes],
                        ..self.end
                    },
                })?;
            }
        }
        Ok(())
    }
}
