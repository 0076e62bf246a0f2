// The engine as firmware and test software link it: the C calls that include/ttpa.h declares. Each is the call of `ttpa` of the same name,
// with its clauses stated again: a library is not linked from C, and no crate stands on a static library.
#![tactic(auto)]

ghost use Rattle.std.specs.Prelude.{◌≡◌, [], ◌∷◌};
ghost use Rattle.ttpa.specs.Rules.Calls.{version_call, check_call, read_address_call, write_address_call, write_data_call, round_call, trace_call, owner_call, convert_call, start_call};
ghost use Rattle.ttpa.specs.Rules.Calls.{step_call, fill_call, holder_call, round_keeping_call, step_keeping_call, screens_call, post_call, turn_call, join_call, pattern_call, contents_call};

mod order;

use screens::state::ScreenState;
use ttpa::{PARTS, REPORT_WORDS, WORDS};

#[unsafe(no_mangle)]
pub extern "C" fn ttpa_version() -> u32
    ensures { result ≡ version_call }
{
    ttpa::ttpa_version()
}

#[unsafe(no_mangle)]
pub extern "C" fn ttpa_check(file: &[u8]) -> u8
    ensures { result ≡ check_call file.now }
{
    ttpa::ttpa_check(file)
}

#[unsafe(no_mangle)]
pub extern "C" fn ttpa_read_address(frame: &[u8], parts: &mut [u8; PARTS]) -> u8
    ensures { (result, parts.new) ≡ read_address_call frame.now parts.old }
{
    ttpa::ttpa_read_address(frame, parts)
}

#[unsafe(no_mangle)]
pub extern "C" fn ttpa_write_address(
    frame: &mut [u8],
    epoch: u8,
    name: u8,
    file: u8,
    operation: u8,
    record: u8,
) -> u8
    ensures { (result, frame.new) ≡ write_address_call frame.old epoch name file operation «record» }
{
    ttpa::ttpa_write_address(frame, epoch, name, file, operation, record)
}

#[unsafe(no_mangle)]
pub extern "C" fn ttpa_write_data(frame: &mut [u8], b0: u8, b1: u8, b2: u8, b3: u8) -> u8
    ensures { (result, frame.new) ≡ write_data_call frame.old (b0 ∷ b1 ∷ b2 ∷ b3 ∷ []) }
{
    ttpa::ttpa_write_data(frame, b0, b1, b2, b3)
}

#[unsafe(no_mangle)]
pub extern "C" fn ttpa_round(
    file: &mut [u8],
    frame: &[u8],
    answer: &mut [u8],
    senders: &mut u64,
) -> u8
    ensures { (result, senders.new, answer.new, file.new) ≡ round_call file.old frame.now answer.old senders.old }
{
    ttpa::ttpa_round(file, frame, answer, senders)
}

#[unsafe(no_mangle)]
pub extern "C" fn ttpa_trace(file: &mut [u8], trace: &[u8], report: &mut [u64; REPORT_WORDS]) -> u8
    ensures { (result, report.new, file.new) ≡ trace_call file.old trace.now report.old }
{
    ttpa::ttpa_trace(file, trace, report)
}

#[unsafe(no_mangle)]
pub extern "C" fn ttpa_owner(file: &[u8], master: u8, buffer: &mut [u8], length: &mut u64) -> u8
    ensures { (result, length.new, buffer.new) ≡ owner_call file.now master buffer.old length.old }
{
    ttpa::ttpa_owner(file, master, buffer, length)
}

#[unsafe(no_mangle)]
pub extern "C" fn ttpa_to_edition_1(file: &[u8], out: &mut [u8], length: &mut u64) -> u8
    ensures { (result, length.new, out.new) ≡ convert_call 1 file.now out.old length.old }
{
    ttpa::ttpa_to_edition_1(file, out, length)
}

#[unsafe(no_mangle)]
pub extern "C" fn ttpa_to_edition_2(file: &[u8], out: &mut [u8], length: &mut u64) -> u8
    ensures { (result, length.new, out.new) ≡ convert_call 2 file.now out.old length.old }
{
    ttpa::ttpa_to_edition_2(file, out, length)
}

#[unsafe(no_mangle)]
pub extern "C" fn ttpa_join(first: &[u8], second: &[u8], out: &mut [u8], length: &mut u64) -> u8
    ensures { (result, length.new, out.new) ≡ join_call first.now second.now out.old length.old }
{
    ttpa::ttpa_join(first, second, out, length)
}

#[unsafe(no_mangle)]
pub extern "C" fn ttpa_start(names: &[u8], run: &mut [u64; WORDS]) -> u8
    ensures { (result, run.new) ≡ start_call names.now run.old }
{
    ttpa::ttpa_start(names, run)
}

#[unsafe(no_mangle)]
pub extern "C" fn ttpa_step(
    file: &mut [u8],
    run: &mut [u64; WORDS],
    names: &[u8],
    answer: &mut [u8],
    senders: &mut u64,
) -> u8
    ensures { (result, senders.new, run.new, answer.new, file.new)
        ≡ step_call file.old run.old names.now answer.old senders.old }
{
    ttpa::ttpa_step(file, run, names, answer, senders)
}

#[unsafe(no_mangle)]
pub extern "C" fn ttpa_fill(file: &[u8], held: &mut [u8], count: &mut u64) -> u8
    ensures { (result, count.new, held.new) ≡ fill_call file.now held.old count.old }
{
    ttpa::ttpa_fill(file, held, count)
}

#[unsafe(no_mangle)]
pub extern "C" fn ttpa_holder(held: &[u8], count: u64, name: u8, place: &mut u64) -> u8
    ensures { (result, place.new) ≡ holder_call held.now count name place.old }
{
    ttpa::ttpa_holder(held, count, name, place)
}

#[unsafe(no_mangle)]
pub extern "C" fn ttpa_round_keeping(
    file: &mut [u8],
    frame: &[u8],
    answer: &mut [u8],
    senders: &mut u64,
    held: &mut [u8],
    count: u64,
) -> u8
    ensures { (result, senders.new, answer.new, file.new, held.new)
        ≡ round_keeping_call file.old frame.now answer.old senders.old held.old count }
{
    ttpa::ttpa_round_keeping(file, frame, answer, senders, held, count)
}

#[unsafe(no_mangle)]
pub extern "C" fn ttpa_step_keeping(
    file: &mut [u8],
    run: &mut [u64; WORDS],
    names: &[u8],
    answer: &mut [u8],
    senders: &mut u64,
    held: &mut [u8],
    count: u64,
) -> u8
    ensures { (result, senders.new, run.new, answer.new, file.new, held.new)
        ≡ step_keeping_call file.old run.old names.now answer.old senders.old held.old count }
{
    ttpa::ttpa_step_keeping(file, run, names, answer, senders, held, count)
}

#[unsafe(no_mangle)]
pub extern "C" fn ttpa_screens(state: &mut ScreenState) -> u8
    ensures { (result, state.new) ≡ screens_call state.old }
{
    ttpa::ttpa_screens(state)
}

#[unsafe(no_mangle)]
pub extern "C" fn ttpa_post(
    state: &mut ScreenState,
    screen: u8,
    name: u8,
    file: u8,
    record: u8,
) -> u8
    ensures { (result, state.new) ≡ post_call state.old screen name file «record» }
{
    ttpa::ttpa_post(state, screen, name, file, record)
}

#[unsafe(no_mangle)]
pub extern "C" fn ttpa_turn(
    file: &mut [u8],
    state: &mut ScreenState,
    answer: &mut [u8],
    senders: &mut u64,
    screen: &mut u8,
) -> u8
    ensures { (result, senders.new, screen.new, state.new, answer.new, file.new)
        ≡ turn_call file.old state.old answer.old senders.old screen.old }
{
    ttpa::ttpa_turn(file, state, answer, senders, screen)
}

#[unsafe(no_mangle)]
pub extern "C" fn ttpa_pattern(pattern: u16, kind: &mut u8) -> u8
    ensures { (result, kind.new) ≡ pattern_call pattern kind.old }
{
    ttpa::ttpa_pattern(pattern, kind)
}

#[unsafe(no_mangle)]
pub extern "C" fn ttpa_contents(
    file: &[u8],
    slave: u64,
    number: u8,
    buffer: &mut [u8],
    length: &mut u64,
) -> u8
    ensures { (result, length.new, buffer.new) ≡ contents_call file.now slave number buffer.old length.old }
{
    ttpa::ttpa_contents(file, slave, number, buffer, length)
}
