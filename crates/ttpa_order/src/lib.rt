// The C calls, each called with its arguments in the order of include/ttpa.h. A contract speaks of parameters by their names, and C
// passes them by their order: a call of `ttpa` whose parameters stood in another order would not meet the contract here. `ttpa_version`,
// which has none, is not here.
#![tactic(auto)]

ghost use Rattle.std.specs.Prelude.{◌≡◌, [], ◌∷◌};
ghost use Rattle.ttpa.specs.Rules.Calls.{check_call, read_address_call, write_address_call, write_data_call, round_call, trace_call, owner_call, convert_call, start_call, step_call, fill_call, holder_call};
ghost use Rattle.ttpa.specs.Rules.Calls.{round_keeping_call, step_keeping_call, screens_call, post_call, turn_call, join_call, pattern_call, contents_call};

use screens::state::ScreenState;
use ttpa::{
    PARTS, REPORT_WORDS, WORDS, ttpa_check, ttpa_contents, ttpa_fill, ttpa_holder, ttpa_join,
    ttpa_owner, ttpa_pattern, ttpa_post, ttpa_read_address, ttpa_round, ttpa_round_keeping,
    ttpa_screens, ttpa_start, ttpa_step, ttpa_step_keeping, ttpa_to_edition_1, ttpa_to_edition_2,
    ttpa_trace, ttpa_turn, ttpa_write_address, ttpa_write_data,
};

pub fn check(file: &[u8]) -> u8
    ensures { result ≡ check_call file.now }
{
    ttpa_check(file)
}

pub fn read_address(frame: &[u8], parts: &mut [u8; PARTS]) -> u8
    ensures { (result, parts.new) ≡ read_address_call frame.now parts.old }
{
    ttpa_read_address(frame, parts)
}

pub fn write_address(
    frame: &mut [u8],
    epoch: u8,
    name: u8,
    file: u8,
    operation: u8,
    record: u8,
) -> u8
    ensures { (result, frame.new) ≡ write_address_call frame.old epoch name file operation «record» }
{
    ttpa_write_address(frame, epoch, name, file, operation, record)
}

pub fn write_data(frame: &mut [u8], b0: u8, b1: u8, b2: u8, b3: u8) -> u8
    ensures { (result, frame.new) ≡ write_data_call frame.old (b0 ∷ b1 ∷ b2 ∷ b3 ∷ []) }
{
    ttpa_write_data(frame, b0, b1, b2, b3)
}

pub fn round(file: &mut [u8], frame: &[u8], answer: &mut [u8], senders: &mut u64) -> u8
    ensures { (result, senders.new, answer.new, file.new) ≡ round_call file.old frame.now answer.old senders.old }
{
    ttpa_round(file, frame, answer, senders)
}

pub fn trace(file: &mut [u8], trace: &[u8], report: &mut [u64; REPORT_WORDS]) -> u8
    ensures { (result, report.new, file.new) ≡ trace_call file.old trace.now report.old }
{
    ttpa_trace(file, trace, report)
}

pub fn owner(file: &[u8], master: u8, buffer: &mut [u8], length: &mut u64) -> u8
    ensures { (result, length.new, buffer.new) ≡ owner_call file.now master buffer.old length.old }
{
    ttpa_owner(file, master, buffer, length)
}

pub fn to_edition_1(file: &[u8], out: &mut [u8], length: &mut u64) -> u8
    ensures { (result, length.new, out.new) ≡ convert_call 1 file.now out.old length.old }
{
    ttpa_to_edition_1(file, out, length)
}

pub fn to_edition_2(file: &[u8], out: &mut [u8], length: &mut u64) -> u8
    ensures { (result, length.new, out.new) ≡ convert_call 2 file.now out.old length.old }
{
    ttpa_to_edition_2(file, out, length)
}

pub fn join(first: &[u8], second: &[u8], out: &mut [u8], length: &mut u64) -> u8
    ensures { (result, length.new, out.new) ≡ join_call first.now second.now out.old length.old }
{
    ttpa_join(first, second, out, length)
}

pub fn start(names: &[u8], run: &mut [u64; WORDS]) -> u8
    ensures { (result, run.new) ≡ start_call names.now run.old }
{
    ttpa_start(names, run)
}

pub fn step(
    file: &mut [u8],
    run: &mut [u64; WORDS],
    names: &[u8],
    answer: &mut [u8],
    senders: &mut u64,
) -> u8
    ensures { (result, senders.new, run.new, answer.new, file.new)
        ≡ step_call file.old run.old names.now answer.old senders.old }
{
    ttpa_step(file, run, names, answer, senders)
}

pub fn fill(file: &[u8], held: &mut [u8], count: &mut u64) -> u8
    ensures { (result, count.new, held.new) ≡ fill_call file.now held.old count.old }
{
    ttpa_fill(file, held, count)
}

pub fn holder(held: &[u8], count: u64, name: u8, place: &mut u64) -> u8
    ensures { (result, place.new) ≡ holder_call held.now count name place.old }
{
    ttpa_holder(held, count, name, place)
}

pub fn round_keeping(
    file: &mut [u8],
    frame: &[u8],
    answer: &mut [u8],
    senders: &mut u64,
    held: &mut [u8],
    count: u64,
) -> u8
    ensures { (result, senders.new, answer.new, file.new, held.new)
        ≡ round_keeping_call file.old frame.now answer.old senders.old held.old count }
{
    ttpa_round_keeping(file, frame, answer, senders, held, count)
}

pub fn step_keeping(
    file: &mut [u8],
    run: &mut [u64; WORDS],
    names: &[u8],
    answer: &mut [u8],
    senders: &mut u64,
    held: &mut [u8],
    count: u64,
) -> u8
    ensures { (result, senders.new, run.new, answer.new, file.new, held.new)
        ≡ step_keeping_call file.old run.old names.now answer.old senders.old held.old count }
{
    ttpa_step_keeping(file, run, names, answer, senders, held, count)
}

pub fn screens(state: &mut ScreenState) -> u8
    ensures { (result, state.new) ≡ screens_call state.old }
{
    ttpa_screens(state)
}

pub fn post(state: &mut ScreenState, screen: u8, name: u8, file: u8, record: u8) -> u8
    ensures { (result, state.new) ≡ post_call state.old screen name file «record» }
{
    ttpa_post(state, screen, name, file, record)
}

pub fn turn(
    file: &mut [u8],
    state: &mut ScreenState,
    answer: &mut [u8],
    senders: &mut u64,
    screen: &mut u8,
) -> u8
    ensures { (result, senders.new, screen.new, state.new, answer.new, file.new)
        ≡ turn_call file.old state.old answer.old senders.old screen.old }
{
    ttpa_turn(file, state, answer, senders, screen)
}

pub fn pattern(pattern: u16, kind: &mut u8) -> u8
    ensures { (result, kind.new) ≡ pattern_call pattern kind.old }
{
    ttpa_pattern(pattern, kind)
}

pub fn contents(file: &[u8], slave: u64, number: u8, buffer: &mut [u8], length: &mut u64) -> u8
    ensures { (result, length.new, buffer.new) ≡ contents_call file.now slave number buffer.old length.old }
{
    ttpa_contents(file, slave, number, buffer, length)
}
