// One patch, as the caller's own part of the patches.
ghost use Rattle.std.specs.Prelude.{◌≡◌};
ghost use Rattle.picture.specs.Part.{patch_part};

// Patch i: empty where patch_size is not in 1..32, or the whole patch does not lie inside.
pub fn patch(patches: &[f32], patch_size: usize, i: usize) -> &[f32]
    ensures { result.now ≡ patch_part patches.now patch_size i }
{
    if patch_size < 1 {
        return &patches[0..0];
    }
    if 32 < patch_size {
        return &patches[0..0];
    }
    let n = 3 * (patch_size * patch_size);
    if patches.len() / n <= i {
        return &patches[0..0];
    }
    let a = i * n;
    let e = a + n;
    &patches[a..e]
}
