// A captured trace run on a cluster file: "A refused frame is counted, and the run goes on."
ghost use Rattle.std.specs.Prelude.{◌≡◌, false};
ghost use Rattle.file.specs.Rules.Decode.{decode};
ghost use Rattle.file.specs.Inner.Accepted.{Placed};
ghost use Rattle.cluster.specs.Inner.Unheard.{MaySleep};
ghost use Rattle.trace.specs.Rules.Trace.{broken_trace};
ghost use Rattle.trace.specs.Rules.TraceRun.{trace_on};
ghost use Rattle.trace.specs.Inner.TraceAnswers.{report_in, traced_of};
ghost use Rattle.trace.specs.Inner.Sent.{FewFrames, FrameSent, TraceSent};

use crate::layout::{COUNT_PLACE, HEADER_SIZE, LENGTH_PLACE, ROW_SIZE, is_broken};
use crate::report::{NO_FRAMES, Report, counted};
use cluster::round::{firework_in, one_unheard};
use file::numbers::{byte_at, u16_at};
use file::survey::survey;
use file::types::{PLACES, Refusal, SlavePlaces};
use master_slave::slots::SLOTS;

// The frames counted so far, and whether someone may be asleep after them.
#[derive(Clone, Copy)]
pub struct Progress {
    pub report: Report,
    pub sleepers: bool,
}

// One frame sent and counted. Nobody hears its answer: the buffer is one for all frames. File and places stay two arguments, as `naming::run`
// says.
fn run_frame(
    file: &mut [u8],
    places: &SlavePlaces,
    frame: &[u8],
    buffer: &mut [u8; SLOTS],
    before: Progress,
) -> Progress
    requires { Placed file.old places.now × FewFrames (report_in before.report) × MaySleep before.sleepers (decode file.old) }
    ensures { FrameSent file.old places.now frame.now (report_in before.report) (report_in result.report) file.new × MaySleep result.sleepers (decode file.new) }
{
    let firework = firework_in(frame);
    let sent = one_unheard(file, places, firework, frame, buffer, before.sleepers);
    let report = counted(before.report, sent.carried, firework);
    Progress {
        report,
        sleepers: sent.sleepers,
    }
}

// The frames of a trace that does not break the layout, each sent and counted. No frame moves the slaves' files, so the places stay
// what they are.
fn run_frames(file: &mut [u8], places: &SlavePlaces, trace: &[u8]) -> Report
    requires { Placed file.old places.now × (broken_trace trace.now ≡ false) }
    ensures { TraceSent file.old trace.now (report_in result) file.new }
{
    let count = u16_at(trace, COUNT_PLACE);
    let mut buffer = [0u8; SLOTS];
    let mut progress = Progress {
        report: NO_FRAMES,
        sleepers: true,
    };
    let mut start = HEADER_SIZE + ROW_SIZE * count;
    for index in 0..count {
        let row = HEADER_SIZE + ROW_SIZE * index;
        let end = start + byte_at(trace, row + LENGTH_PLACE);
        progress = run_frame(file, places, &trace[start..end], &mut buffer, progress);
        start = end;
    }
    progress.report
}

// A trace on a file: refused by its number, with the file as it was, or run, with the report. The file is checked once.
pub fn run_trace(file: &mut [u8], trace: &[u8]) -> Result<Report, Refusal>
    ensures { (traced_of result, file.new) ≡ trace_on file.old trace.now }
{
    let mut places = [0u16; PLACES];
    survey(file, &mut places)?;
    if is_broken(trace) {
        return Err(Refusal::Trace);
    }
    Ok(run_frames(file, &places, trace))
}
