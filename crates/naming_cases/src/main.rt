// Naming runs against vectors of an independent model. A line of the input is one of
//   start NAMES
//   step FILE NAMES end,index,step,value,rounds,comparisons,high,low LENGTH
//   steps FILE NAMES end,index,step,value,rounds,comparisons,high,low LENGTH MOST
//   single FILE NAMES end,index,step,value,rounds,comparisons,high,low LENGTH MOST
//   run FILE NAMES STEPS FRAME FRAME ..
// LENGTH is that of the answer buffer, which holds EE throughout; MOST is how many steps are made at the most, by one call or, after
// single, by a call for each; a run sends all the frames, each with a step that a short buffer refuses, before every seventh of its
// steps from the fourth on. After the line stand the number of the answer and the position; of a step the number, the mask, the file,
// the position and the buffer afterwards; of several steps the number, how many made their round, and the same; of a run the position
// and the file at its end.
#![tactic(auto)]

use case_input::fields::{bytes_at, count_at, is, number_at};
use case_input::lines::each_line;
use case_input::show;
use case_input::show::text;
use cluster::round::round;
use file::types::Refusal;
use naming::position::{RunCounts, RunHalves, RunPlace, RunPosition};
use naming::run::{MadeStep, start, step};
use naming::steps::{MadeSteps, steps};
use std::io;

// The most bytes that a file, a list of names, a frame and an answer buffer have here. They cut a longer field, so that no
// `Vec` stands for them.
const FILE: usize = 2048;

const NAMES: usize = 512;

const FRAME: usize = 64;

const BUFFER: usize = 168;

// The shortest answer buffer that is taken, and the longest that is refused.
const TAKEN: usize = 64;

const SHORT: usize = 63;

// The steps of a run before which its frames are sent.
const EVERY: u64 = 7;

const FOURTH: u64 = 3;

// The fields of its frames; one that the line does not have is a frame of no bytes, which is refused.
const FIRST_FRAME: usize = 4;

const PAST_FRAMES: usize = 20;

// No step: none sent, and the run stays.
fn no_steps(run: RunPosition) -> MadeSteps {
    MadeSteps {
        steps: 0,
        senders: 0,
        run,
    }
}

// One call after another, up to the first that makes no round: it counts none, and a refusal is answered where no other was made before.
fn one_by_one(
    file: &mut [u8],
    start: RunPosition,
    names: &[u8],
    buffer: &mut [u8],
    most: u64,
) -> Result<MadeSteps, Refusal> {
    let mut made = no_steps(start);
    for before in 0..most {
        let answer = step(file, made.run, names, buffer);
        if before == 0 {
            answer?;
        }
        let Ok(Some(step)) = answer else {
            break;
        };
        made = MadeSteps {
            steps: before + 1,
            senders: step.senders,
            run: step.run,
        };
    }
    Ok(made)
}

// The number of a refusal, 0 where there is none.
fn number<T>(out: &impl Print, answer: &Result<T, Refusal>) -> io::Result<()> {
    let number = match answer {
        Err(why) => why.number(),
        Ok(_) => 0,
    };
    print!(out; " {number}")
}

// The position in the fields from 3 on, all 0 where there are none.
fn position_at(case: &[u8]) -> RunPosition {
    RunPosition {
        end: number_at(case, 3),
        place: RunPlace {
            index: number_at(case, 4),
            step: number_at(case, 5),
            value: number_at(case, 6),
        },
        counts: RunCounts {
            rounds: number_at(case, 7),
            comparisons: number_at(case, 8),
        },
        halves: RunHalves {
            high: number_at(case, 9),
            low: number_at(case, 10),
        },
    }
}

fn position(out: &impl Print, run: RunPosition, between: &str) -> io::Result<()> {
    print!(out; " {}", run.end)?;
    for n in [
        run.place.index,
        run.place.step,
        run.place.value,
        run.counts.rounds,
        run.counts.comparisons,
        run.halves.high,
        run.halves.low,
    ] {
        print!(out; "{between}{n}")?;
    }
    Ok(())
}

fn start_case(out: &impl Print, names: &[u8]) -> io::Result<()> {
    let answer = start(names);
    number(out, &answer)?;
    if let Ok(run) = answer {
        position(out, run, " ")?;
    }
    Ok(())
}

fn step_case(
    out: &impl Print,
    file: &mut [u8],
    run: RunPosition,
    names: &[u8],
    buffer: &mut [u8],
) -> io::Result<()> {
    let answer = step(file, run, names, buffer);
    number(out, &answer)?;
    let made = answer
        .ok()
        .flatten()
        .unwrap_or(MadeStep { senders: 0, run });
    show::word(out, made.senders)?;
    show::bytes(out, file)?;
    position(out, made.run, ",")?;
    show::bytes(out, buffer)
}

fn several(
    case: &[u8],
    file: &mut [u8],
    run: RunPosition,
    names: &[u8],
    buffer: &mut [u8],
) -> Result<MadeSteps, Refusal> {
    let most = number_at(case, 12);
    if is(case, b"single") {
        one_by_one(file, run, names, buffer, most)
    } else {
        steps(file, run, names, buffer, most)
    }
}

fn several_case(
    out: &impl Print,
    case: &[u8],
    file: &mut [u8],
    names: &[u8],
    buffer: &mut [u8],
) -> io::Result<()> {
    let run = position_at(case);
    let answer = several(case, file, run, names, buffer);
    number(out, &answer)?;
    let made = answer.unwrap_or(no_steps(run));
    show::number(out, made.steps)?;
    show::word(out, made.senders)?;
    show::bytes(out, file)?;
    position(out, made.run, ",")?;
    show::bytes(out, buffer)
}

fn with_buffer(
    out: &impl Print,
    case: &[u8],
    file: &mut [u8],
    names: &[u8],
    buffer: &mut [u8],
) -> io::Result<()> {
    if is(case, b"step") {
        return step_case(out, file, position_at(case), names, buffer);
    }
    several_case(out, case, file, names, buffer)
}

// A frame of others, from a field, and a step that its buffer refuses.
fn exchange(case: &[u8], field: usize, file: &mut [u8], run: RunPosition, names: &[u8]) {
    let mut frame = [0u8; FRAME];
    let mut buffer = [0xEEu8; TAKEN];
    let mut short = [0xEEu8; SHORT];
    let size = bytes_at(case, field, &mut frame);
    let _ = round(file, &frame[..size], &mut buffer);
    let _ = step(file, run, names, &mut short);
}

// What happens between two steps of a run.
fn others(case: &[u8], file: &mut [u8], run: RunPosition, names: &[u8]) {
    for field in FIRST_FRAME..PAST_FRAMES {
        exchange(case, field, file, run, names);
    }
}

// The run after a step; it stays where the step made no round.
fn moved(file: &mut [u8], run: RunPosition, names: &[u8]) -> RunPosition {
    let mut buffer = [0xEEu8; TAKEN];
    let answer = step(file, run, names, &mut buffer);
    answer.ok().flatten().map_or(run, |made| made.run)
}

fn ran(case: &[u8], file: &mut [u8], fresh: RunPosition, names: &[u8], steps: u64) -> RunPosition {
    let mut run = fresh;
    for i in 0..steps {
        if i % EVERY == FOURTH {
            others(case, file, run, names);
        }
        run = moved(file, run, names);
    }
    run
}

fn run_case(out: &impl Print, case: &[u8], file: &mut [u8], names: &[u8]) -> io::Result<()> {
    let fresh = start(names).unwrap_or(position_at(b""));
    let run = ran(case, file, fresh, names, number_at(case, 3));
    position(out, run, ",")?;
    show::bytes(out, file)
}

fn on_file(out: &impl Print, case: &[u8], file: &mut [u8], names: &[u8]) -> io::Result<()> {
    if is(case, b"run") {
        return run_case(out, case, file, names);
    }
    let mut buffer = [0xEEu8; BUFFER];
    let length = count_at(case, 11, &buffer);
    with_buffer(out, case, file, names, &mut buffer[..length])
}

fn call(out: &impl Print, case: &[u8]) -> io::Result<()> {
    let mut file = [0u8; FILE];
    let mut names = [0u8; NAMES];
    if is(case, b"start") {
        let count = bytes_at(case, 1, &mut names);
        return start_case(out, &names[..count]);
    }
    let size = bytes_at(case, 1, &mut file);
    let count = bytes_at(case, 2, &mut names);
    on_file(out, case, &mut file[..size], &names[..count])
}

fn run(out: &impl Print, case: &[u8]) -> io::Result<()> {
    text(out, case)?;
    if !is(case, b"#") {
        text(out, b" =")?;
        call(out, case)?;
    }
    text(out, b"\n")
}

fn main(rt: HostRuntime) -> io::Result<()> {
    each_line(rt.alloc(), rt.stdin(), |case| run(&rt, case))
}
