// What a call may be handed, and why it is refused.
#![tactic(auto)]

ghost use Rattle.std.specs.Prelude.{◌≡◌};
ghost use Rattle.picture_limits.specs.Refusal as S;

pub mod settings;

#[derive(Clone, Copy)]
pub struct PictureSettings {
    pub patch_size: usize,
    pub spatial_merge_size: usize,
    pub image_size: usize,
    pub resize_rule: usize,
    pub mean: [f32; 3],
    pub deviation: [f32; 3],
}

// Why a call is refused, in the order of the papers' numbers: 1 to 27.
#[derive(Clone, Copy, Debug, PartialEq, Eq)]
pub enum Refusal {
    Setting,
    Side,
    RgbLength,
    ImageSize,
    Output,
    Grid,
    PatchesLength,
    Sample,
    WeightsLength,
    TableLength,
    Scratch,
    NotFinite,
    ConfigText,
    ConfigDepth,
    ConfigVision,
    Header,
    Tensor,
    Offsets,
    Channel,
    Tile,
    List,
    Tokens,
    KeyHeld,
    NoVectors,
    PoolFull,
    KeyUnknown,
    PoolSlice,
}

// The paper's number of a refusal.
impl From<Refusal> for u32 {
    ghost from_gives = { λ r n. n ≡ S.number r };

    fn from(r: Refusal) -> u32 {
        match r {
            Refusal::Setting => 1,
            Refusal::Side => 2,
            Refusal::RgbLength => 3,
            Refusal::ImageSize => 4,
            Refusal::Output => 5,
            Refusal::Grid => 6,
            Refusal::PatchesLength => 7,
            Refusal::Sample => 8,
            Refusal::WeightsLength => 9,
            Refusal::TableLength => 10,
            Refusal::Scratch => 11,
            Refusal::NotFinite => 12,
            Refusal::ConfigText => 13,
            Refusal::ConfigDepth => 14,
            Refusal::ConfigVision => 15,
            Refusal::Header => 16,
            Refusal::Tensor => 17,
            Refusal::Offsets => 18,
            Refusal::Channel => 19,
            Refusal::Tile => 20,
            Refusal::List => 21,
            Refusal::Tokens => 22,
            Refusal::KeyHeld => 23,
            Refusal::NoVectors => 24,
            Refusal::PoolFull => 25,
            Refusal::KeyUnknown => 26,
            Refusal::PoolSlice => 27,
        }
    }
}

// A part of a picture: `height` rows from row `top` on and `width` columns from column `left` on.
#[derive(Clone, Copy)]
pub struct View {
    pub top: usize,
    pub left: usize,
    pub height: usize,
    pub width: usize,
}
