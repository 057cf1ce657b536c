// One record: what its line says, and whether the rule's value is the Rust's.
ghost use Rattle.std.specs.Prelude.{◌≡◌, ◌<◌};
ghost use Rattle.number_bf16_half_root.specs.Packed.{packed};
ghost use Rattle.number_replay.specs.Records.{answer_of, place_of, verdict_from, verdict_of};

#[derive(Clone, Copy)]
pub enum Verdict {
    // the letter of the rule
    Same(u8),
    // what the rule gives
    Differs(u32),
    // the line is no record
    Bad,
}

// The letter h, 104: its input is a pattern of 16 bits.
fn half(input: u32) -> Option<u32>
    ensures { result ≡ answer_of 104 input }
{
    if input < 0x1_0000 {
        Some(number_bf16_half_root::half::half_to_f32(input as u16))
    } else {
        None
    }
}

fn pack(input: u32) -> u32
    ensures { result ≡ packed input }
{
    number_bf16_half_root::packed::bf16_pack(input) as u32
}

// The letter w, 119: its input has 16 bits too.
fn widen(input: u32) -> Option<u32>
    ensures { result ≡ answer_of 119 input }
{
    if input < 0x1_0000 {
        Some(number_bf16_half_root::packed::bf16_widen(input as u16))
    } else {
        None
    }
}

fn answer(letter: u8, input: u32) -> Option<u32>
    ensures { result ≡ answer_of letter input }
{
    match letter {
        b'b' => Some(number_bf16_half_root::bf16::bf16(input)),
        b'h' => half(input),
        b'r' => Some(number_bf16_half_root::root::root(input)),
        b'e' => Some(number_exp_tanh::exp::exp(input)),
        b't' => Some(number_exp_tanh::tanh::tanh(input)),
        b'p' => Some(pack(input)),
        b'w' => widen(input),
        _ => None,
    }
}

fn compare(letter: u8, input: Option<u32>, answered: Option<u32>) -> Verdict
    ensures { result ≡ verdict_from letter input answered }
{
    let Some(x) = input else {
        return Verdict::Bad;
    };
    let Some(rust) = answered else {
        return Verdict::Bad;
    };
    let Some(ours) = answer(letter, x) else {
        return Verdict::Bad;
    };
    if ours == rust {
        Verdict::Same(letter)
    } else {
        Verdict::Differs(ours)
    }
}

pub fn judge(line: &[u8]) -> Verdict
    ensures { result ≡ verdict_of line.now }
{
    if line.len() != 20 {
        return Verdict::Bad;
    }
    if line[1] != b' ' {
        return Verdict::Bad;
    }
    if line[10] != b' ' {
        return Verdict::Bad;
    }
    if line[19] != b'\n' {
        return Verdict::Bad;
    }
    let input = crate::hex::read_hex(&line[2..10]);
    let answered = crate::hex::read_hex(&line[11..19]);
    compare(line[0], input, answered)
}

fn rule_place(letter: u8) -> usize
    ensures { (result ≡ place_of (Verdict.Same letter)) × (result < 8) }
{
    match letter {
        b'b' => 0,
        b'h' => 1,
        b'r' => 2,
        b'e' => 3,
        b't' => 4,
        b'p' => 5,
        b'w' => 6,
        _ => 7,
    }
}

// Where a verdict is counted: the rules in the order of the report, then all that does not agree.
pub fn place(v: Verdict) -> usize
    ensures { (result ≡ place_of v) × (result < 8) }
{
    match v {
        Verdict::Same(letter) => rule_place(letter),
        Verdict::Differs(_) => 7,
        Verdict::Bad => 7,
    }
}
