// Three signed answers in twelve lent bytes, four bytes each, low byte first.
ghost use Rattle.std.specs.Prelude.{◌≡◌, ◌+◌, ◌*◌, ◌≤◌, ◌<◌, length, IfOk};
ghost use Rattle.std.proofs.lemmas.List.Edits.{sets};
ghost use Rattle.register.specs.Answer.{answer_of};
ghost use Rattle.seatreg.specs.Answers.{answer_size, answers_size, bits, four_bytes, answer_bytes};
ghost use Rattle.seatreg.specs.Entry.{filled_told, AnswersPut};

use register::Answers;
use rules::Refusal;

pub const ANSWERS_SIZE: usize = 12;

const ANSWER_SIZE: usize = 4;

// The 32 bits of -1.
const ALL_ONES: u32 = 4294967295;

// The bits of a signed number, two's complement.
fn bits_of(v: i32) -> u32
    ensures { result ≡ bits v }
{
    if v < 0 {
        let k = -1 - v;
        return ALL_ONES - (k as u32);
    }
    v as u32
}

// Four bytes at `at`, low byte first.
fn put_four(s: &mut [u8], at: usize, n: u32)
    requires { at + answer_size ≤ length s.old }
    ensures { s.new ≡ sets s.old at (four_bytes n) }
{
    s[at] = (n % 256) as u8;
    s[at + 1] = (n / 256 % 256) as u8;
    s[at + 2] = (n / 65536 % 256) as u8;
    s[at + 3] = (n / 16777216 % 256) as u8;
}

// Three answers into twelve bytes.
fn put_answers(answers: &mut [u8], first: i32, second: i32, third: i32)
    requires { length answers.old ≡ answers_size }
    ensures { answers.new ≡ answer_bytes first second third }
{
    put_four(answers, 0, bits_of(first));
    put_four(answers, ANSWER_SIZE, bits_of(second));
    put_four(answers, 2 * ANSWER_SIZE, bits_of(third));
}

// The answers are written only when accepted; the refusal number is returned.
pub fn hand_out(returned: Result<Answers, Refusal>, answers: &mut [u8]) -> u32
    requires { length answers.old ≡ answers_size }
    ensures { AnswersPut (answer_of returned) answers.old result answers.new }
{
    match returned {
        Ok(told) => {
            put_answers(answers, told.first, told.second, told.third);
            0
        }
        Err(refusal) => refusal.number(),
    }
}

// Of a call that fills the front of a lent buffer with items of this size: how many bytes it filled.
pub fn hand_out_length(filled: Result<usize, Refusal>, size: usize, answers: &mut [u8]) -> u32
    requires { (length answers.old ≡ answers_size) × IfOk filled (λ n. size * n < 2147483648) }
    ensures { AnswersPut (filled_told size filled) answers.old result answers.new }
{
    match filled {
        Ok(n) => hand_out(Ok(Answers::new((size * n) as i32, 0, 0)), answers),
        Err(refusal) => hand_out(Err(refusal), answers),
    }
}
