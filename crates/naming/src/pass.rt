// The places of a pass by their number, and what the round at each writes.
ghost use Rattle.std.specs.Prelude.{◌≡◌, ◌≤◌};
ghost use Rattle.naming.specs.Rules.Pass.{bits, question_of, part_of, place_of, give_step, last_step};
ghost use Rattle.naming.specs.Rules.Run.{tried};
ghost use Rattle.naming.specs.Inner.StepAnswers.{part_at, WritesAt};

// The bits of a value.
const BITS: u64 = 64;

// "A comparison is three rounds": the two halves of its value, and the execute that is answered.
const COMPARISON_ROUNDS: u64 = 3;

// The rounds of a comparison by their number, which is counted with: what is left of a step by 3, and one more for each needless write. An
// enum would be made of such a number and turned into one wherever it is used.
pub const HIGH: u64 = 0;

pub const LOW: u64 = 1;

pub const REPLY: u64 = 2;

// The values of a byte, and of the four bytes of a half.
pub const BYTE: u64 = 256;

pub const HALF: u64 = BYTE * BYTE * BYTE * BYTE;

// The steps of a pass: the poll, the comparisons with 0 and with each bit, then the four rounds that give the name.
pub const POLL: u64 = 0;

pub const FIRST_REPLY: u64 = COMPARISON_ROUNDS;

pub const GIVE_NAME: u64 = 1 + COMPARISON_ROUNDS * (1 + BITS);

const GIVE_HIGH: u64 = GIVE_NAME + 1;

const GIVE_LOW: u64 = GIVE_NAME + 2;

pub const LAST_STEP: u64 = GIVE_NAME + 3;

// No step of a pass.
pub const NO_STEP: u64 = LAST_STEP + 1;

// The value that a comparison sends, by its number in the pass: 0, then the value so far with bit 63 down to bit 0 set.
fn tried_value(question: u64, value: u64) -> u64
    requires { question ≤ bits }
    ensures { result ≡ tried (question_of question) value }
{
    if question == 0 {
        return 0;
    }
    value | (1u64 << (BITS - question))
}

// What the round at a step writes: which half, REPLY where none, and the value that it is a half of; at the execute of a comparison the value
// that is compared with.
#[derive(Clone, Copy)]
pub struct Writing {
    pub part: u64,
    pub value: u64,
}

// The half that a round of the four that give a name writes.
fn given_part(step: u64) -> u64
    requires { give_step ≤ step }
    ensures { (part_of result ≡ part_at (place_of step)) × (result ≤ 2) }
{
    if step == GIVE_HIGH {
        return HIGH;
    }
    if step == GIVE_LOW {
        return LOW;
    }
    REPLY
}

pub fn writing_at(step: u64, value: u64) -> Writing
    requires { step ≤ last_step }
    ensures { WritesAt step value result.part result.value }
{
    if step == POLL {
        return Writing { part: REPLY, value };
    }
    if GIVE_NAME <= step {
        return Writing {
            part: given_part(step),
            value,
        };
    }
    let asked = step - 1;
    Writing {
        part: asked % COMPARISON_ROUNDS,
        value: tried_value(asked / COMPARISON_ROUNDS, value),
    }
}
