// The engine's C calls, on numbers and slices: `ttpa_c` exports each of them, as firmware and test software link it. They keep no state,
// never allocate and always return. Each is the call of the layer below, with the answer as a number.
#![tactic(auto)]

ghost use Rattle.std.specs.Prelude.{◌≡◌, [], ◌∷◌};
ghost use Rattle.ttpa.specs.Rules.Calls.{version_call, check_call, read_address_call, write_address_call, write_data_call, round_call, trace_call, owner_call, convert_call, words_of, position_in, start_call};
ghost use Rattle.ttpa.specs.Rules.Calls.{step_call, fill_call, holder_call, round_keeping_call, step_keeping_call, screens_call, post_call, turn_call, join_call, class_number, pattern_call, contents_call};
ghost use Rattle.ttpa.specs.Inner.Told.{number_told, step_told};
ghost use Rattle.convert.specs.Inner.ConversionAnswers.{edition_in};
ghost use Rattle.naming.specs.Inner.StepAnswers.{position_of, stepped_of, run_after};
ghost use Rattle.file.specs.Rules.Results.{number_in};
ghost use Rattle.file.specs.Inner.Refusals.{outcome_of};
ghost use Rattle.line.specs.Inner.LineAnswers.{class_in};
ghost use Rattle.trace.specs.Rules.TraceRun.{report_words};
ghost use Rattle.trace.specs.Inner.TraceAnswers.{report_in};
ghost use Rattle.trace.specs.Inner.Sent.{FewFrames};

use cluster::round::round;
use contents::read::read_contents;
use convert::convert::convert;
use convert::editions::Edition;
use file::survey::check;
use file::types::{FileNumber, LogicalName, Operation, RecordNumber, Refusal};
use frame::reader::read_address;
use frame::writer::{write_address, write_data};
use join::join::join;
use line::pattern::{PatternClass, read_pattern};
use master_slave::types::RecordAddress;
use naming::position::{RunCounts, RunHalves, RunPlace, RunPosition};
use naming::run::{MadeStep, start, step};
use owner::write::write_owner;
use screens::post::post;
use screens::state::{ScreenState, fresh_state};
use screens::turn::turn;
use summary::fill::fill;
use summary::holder::find_holder;
use summary::round::round_keeping;
use summary::step::step_keeping;
use trace::report::Report;
use trace::run::run_trace;

// The version, as one number: its three numbers stand in specs/Rules/Calls.
const VERSION: u32 = 10100;

// The parts of an address frame.
pub const PARTS: usize = 5;

// The words of a trace's report.
pub const REPORT_WORDS: usize = 5;

// The words of a run, and their places.
pub const WORDS: usize = 8;

const END: usize = 0;

const INDEX: usize = 1;

const STEP: usize = 2;

const VALUE: usize = 3;

const ROUNDS: usize = 4;

const COMPARISONS: usize = 5;

const HIGH: usize = 6;

const LOW: usize = 7;

// Told where nobody holds a name: TTPA_NOBODY.
const NOBODY: u64 = 0xFFFFFFFFFFFFFFFF;

// Told where no screen waited: TTPA_NO_SCREEN.
const NO_SCREEN: u8 = 8;

pub fn ttpa_version() -> u32
    ensures { result ≡ version_call }
{
    VERSION
}

// The number that a call returns: 0 where it is done.
fn number_in(done: Result<(), Refusal>) -> u8
    ensures { result ≡ number_in (outcome_of done) }
{
    match done {
        Ok(()) => 0,
        Err(why) => why.number(),
    }
}

// The same of a call that has a number of its own to tell, which is put into the lent word where it is done.
fn number_telling(done: Result<u64, Refusal>, told: &mut u64) -> u8
    ensures { (result, told.new) ≡ number_told (outcome_of done) told.old }
{
    match done {
        Err(why) => why.number(),
        Ok(number) => {
            *told = number;
            0
        }
    }
}

// How many bytes or names there are, as a word of the C interface.
fn in_word(count: Result<usize, Refusal>) -> Result<u64, Refusal>
    ensures { outcome_of result ≡ outcome_of count }
{
    Ok(count? as u64)
}

pub fn ttpa_check(file: &[u8]) -> u8
    ensures { result ≡ check_call file.now }
{
    number_in(check(file))
}

pub fn ttpa_read_address(frame: &[u8], parts: &mut [u8; PARTS]) -> u8
    ensures { (result, parts.new) ≡ read_address_call frame.now parts.old }
{
    match read_address(frame) {
        Err(why) => why.number(),
        Ok(read) => {
            *parts = [
                read.epoch,
                read.name.0,
                read.file.0,
                read.operation.0,
                read.record.0,
            ];
            0
        }
    }
}

pub fn ttpa_write_address(
    frame: &mut [u8],
    epoch: u8,
    name: u8,
    file: u8,
    operation: u8,
    record: u8,
) -> u8
    ensures { (result, frame.new) ≡ write_address_call frame.old epoch name file operation «record» }
{
    number_in(write_address(
        frame,
        epoch,
        LogicalName::new(name),
        FileNumber(file),
        Operation(operation),
        RecordNumber(record),
    ))
}

pub fn ttpa_write_data(frame: &mut [u8], b0: u8, b1: u8, b2: u8, b3: u8) -> u8
    ensures { (result, frame.new) ≡ write_data_call frame.old (b0 ∷ b1 ∷ b2 ∷ b3 ∷ []) }
{
    number_in(write_data(frame, b0, b1, b2, b3))
}

pub fn ttpa_round(file: &mut [u8], frame: &[u8], answer: &mut [u8], senders: &mut u64) -> u8
    ensures { (result, senders.new, answer.new, file.new) ≡ round_call file.old frame.now answer.old senders.old }
{
    number_telling(round(file, frame, answer), senders)
}

fn report_words(report: Report) -> [u64; REPORT_WORDS]
    requires { FewFrames (report_in report) }
    ensures { result ≡ report_words (report_in report) }
{
    let sum = report.msa + report.msd + report.multipartner + report.refused;
    [
        report.msa,
        report.msd,
        report.multipartner,
        report.refused,
        sum,
    ]
}

pub fn ttpa_trace(file: &mut [u8], trace: &[u8], report: &mut [u64; REPORT_WORDS]) -> u8
    ensures { (result, report.new, file.new) ≡ trace_call file.old trace.now report.old }
{
    match run_trace(file, trace) {
        Err(why) => why.number(),
        Ok(counts) => {
            *report = report_words(counts);
            0
        }
    }
}

pub fn ttpa_owner(file: &[u8], master: u8, buffer: &mut [u8], length: &mut u64) -> u8
    ensures { (result, length.new, buffer.new) ≡ owner_call file.now master buffer.old length.old }
{
    number_telling(
        in_word(write_owner(file, LogicalName::new(master), buffer)),
        length,
    )
}

// A file's form in an edition: the number, and the form's length in the lent word.
fn to_edition(file: &[u8], edition: Edition, out: &mut [u8], length: &mut u64) -> u8
    ensures { (result, length.new, out.new) ≡ convert_call (edition_in edition) file.now out.old length.old }
{
    number_telling(in_word(convert(file, edition, out)), length)
}

pub fn ttpa_to_edition_1(file: &[u8], out: &mut [u8], length: &mut u64) -> u8
    ensures { (result, length.new, out.new) ≡ convert_call 1 file.now out.old length.old }
{
    to_edition(file, Edition::One, out, length)
}

pub fn ttpa_to_edition_2(file: &[u8], out: &mut [u8], length: &mut u64) -> u8
    ensures { (result, length.new, out.new) ≡ convert_call 2 file.now out.old length.old }
{
    to_edition(file, Edition::Two, out, length)
}

// Two files joined: the number, and the joined file's length in the lent word.
pub fn ttpa_join(first: &[u8], second: &[u8], out: &mut [u8], length: &mut u64) -> u8
    ensures { (result, length.new, out.new) ≡ join_call first.now second.now out.old length.old }
{
    number_telling(in_word(join(first, second, out)), length)
}

fn words_of(position: RunPosition) -> [u64; WORDS]
    ensures { result ≡ words_of (position_of position) }
{
    [
        position.end,
        position.place.index,
        position.place.step,
        position.place.value,
        position.counts.rounds,
        position.counts.comparisons,
        position.halves.high,
        position.halves.low,
    ]
}

fn position_in(run: &[u64; WORDS]) -> RunPosition
    ensures { position_of result ≡ position_in run.now }
{
    RunPosition {
        end: run[END],
        place: RunPlace {
            index: run[INDEX],
            step: run[STEP],
            value: run[VALUE],
        },
        counts: RunCounts {
            rounds: run[ROUNDS],
            comparisons: run[COMPARISONS],
        },
        halves: RunHalves {
            high: run[HIGH],
            low: run[LOW],
        },
    }
}

pub fn ttpa_start(names: &[u8], run: &mut [u64; WORDS]) -> u8
    ensures { (result, run.new) ≡ start_call names.now run.old }
{
    match start(names) {
        Err(why) => why.number(),
        Ok(fresh) => {
            *run = words_of(fresh);
            0
        }
    }
}

// A step's number; its senders and its run are put into lent memory where it made a round.
fn step_number(
    stepped: Result<Option<MadeStep>, Refusal>,
    senders: &mut u64,
    run: &mut [u64; WORDS],
) -> u8
    ensures { (result, senders.new, run.new) ≡ step_told (stepped_of stepped) (run_after (position_in run.old) stepped) senders.old run.old }
{
    match stepped {
        Err(why) => why.number(),
        Ok(done) => match done {
            None => 0,
            Some(made) => {
                *senders = made.senders;
                *run = words_of(made.run);
                0
            }
        },
    }
}

pub fn ttpa_step(
    file: &mut [u8],
    run: &mut [u64; WORDS],
    names: &[u8],
    answer: &mut [u8],
    senders: &mut u64,
) -> u8
    ensures { (result, senders.new, run.new, answer.new, file.new)
        ≡ step_call file.old run.old names.now answer.old senders.old }
{
    let stepped = step(file, position_in(run), names, answer);
    step_number(stepped, senders, run)
}

pub fn ttpa_fill(file: &[u8], held: &mut [u8], count: &mut u64) -> u8
    ensures { (result, count.new, held.new) ≡ fill_call file.now held.old count.old }
{
    number_telling(in_word(fill(file, held)), count)
}

pub fn ttpa_holder(held: &[u8], count: u64, name: u8, place: &mut u64) -> u8
    ensures { (result, place.new) ≡ holder_call held.now count name place.old }
{
    match find_holder(held, count as usize, LogicalName::new(name)) {
        Err(why) => why.number(),
        Ok(found) => match found {
            Some(at) => {
                *place = at as u64;
                0
            }
            None => {
                *place = NOBODY;
                0
            }
        },
    }
}

pub fn ttpa_round_keeping(
    file: &mut [u8],
    frame: &[u8],
    answer: &mut [u8],
    senders: &mut u64,
    held: &mut [u8],
    count: u64,
) -> u8
    ensures { (result, senders.new, answer.new, file.new, held.new)
        ≡ round_keeping_call file.old frame.now answer.old senders.old held.old count }
{
    number_telling(
        round_keeping(file, frame, answer, held, count as usize),
        senders,
    )
}

pub fn ttpa_step_keeping(
    file: &mut [u8],
    run: &mut [u64; WORDS],
    names: &[u8],
    answer: &mut [u8],
    senders: &mut u64,
    held: &mut [u8],
    count: u64,
) -> u8
    ensures { (result, senders.new, run.new, answer.new, file.new, held.new)
        ≡ step_keeping_call file.old run.old names.now answer.old senders.old held.old count }
{
    let stepped = step_keeping(file, position_in(run), names, answer, held, count as usize);
    step_number(stepped, senders, run)
}

pub fn ttpa_screens(state: &mut ScreenState) -> u8
    ensures { (result, state.new) ≡ screens_call state.old }
{
    *state = fresh_state();
    0
}

pub fn ttpa_post(state: &mut ScreenState, screen: u8, name: u8, file: u8, record: u8) -> u8
    ensures { (result, state.new) ≡ post_call state.old screen name file «record» }
{
    let read = RecordAddress {
        name: LogicalName::new(name),
        number: FileNumber(file),
        record: RecordNumber(record),
    };
    number_in(post(state, screen, read))
}

pub fn ttpa_turn(
    file: &mut [u8],
    state: &mut ScreenState,
    answer: &mut [u8],
    senders: &mut u64,
    screen: &mut u8,
) -> u8
    ensures { (result, senders.new, screen.new, state.new, answer.new, file.new)
        ≡ turn_call file.old state.old answer.old senders.old screen.old }
{
    match turn(file, state, answer) {
        Err(why) => why.number(),
        Ok(done) => match done {
            None => {
                *screen = NO_SCREEN;
                0
            }
            Some(served) => {
                *senders = served.senders;
                *screen = served.screen;
                0
            }
        },
    }
}

// The classes of a line pattern, as the header numbers them.
const DATA_BYTE: u8 = 0;

const FIREWORK: u8 = 1;

const BROKEN: u8 = 2;

fn class_number(class: PatternClass) -> u8
    ensures { result ≡ class_number (class_in class) }
{
    match class {
        PatternClass::DataByte => DATA_BYTE,
        PatternClass::Firework => FIREWORK,
        PatternClass::Broken => BROKEN,
    }
}

pub fn ttpa_pattern(pattern: u16, kind: &mut u8) -> u8
    ensures { (result, kind.new) ≡ pattern_call pattern kind.old }
{
    match read_pattern(pattern) {
        Err(why) => why.number(),
        Ok(class) => {
            *kind = class_number(class);
            0
        }
    }
}

pub fn ttpa_contents(file: &[u8], slave: u64, number: u8, buffer: &mut [u8], length: &mut u64) -> u8
    ensures { (result, length.new, buffer.new) ≡ contents_call file.now slave number buffer.old length.old }
{
    number_telling(
        in_word(read_contents(file, slave as usize, FileNumber(number), buffer)),
        length,
    )
}
