// One float of a buffer put wrong.
ghost use Rattle.std.specs.Prelude.{◌≡◌};
ghost use Rattle.replay.specs.Damage.{damaged_bits, damaged};

// Damage 1 flips the bit whose number is the place modulo 32.
fn damaged_bits(bits: u32, code: usize, place: usize) -> u32
    ensures { result ≡ damaged_bits bits code place }
{
    match code {
        1 => bits ^ (1u32 << (place % 32)),
        2 => 0x7FC0_0000,
        3 => 0x8000_0000,
        4 => 0x7F80_0000,
        _ => bits,
    }
}

// Nothing happens where there is no such place.
pub fn damage(cells: &mut [f32], code: usize, place: usize)
    ensures { cells.new ≡ damaged cells.old code place }
{
    if place < cells.len() {
        let bits = number_floats::pattern::bits_of_f32(cells[place]);
        cells[place] = number_floats::pattern::f32_of_bits(damaged_bits(bits, code, place));
    }
}
