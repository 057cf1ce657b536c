// Which version of the calls an archive has: one that links, and then answers, cannot be taken for another.
ghost use Rattle.std.specs.Prelude.{◌≡◌};

// 0.7.0: ten thousand times the first number, a hundred times the second, and the third.
#[unsafe(no_mangle)]
pub extern "C" fn kz_version() -> u32
    ensures { result ≡ 700 }
{
    700
}
