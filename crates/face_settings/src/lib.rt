// Settings as the C face takes them and hands them back, with structs of their own, so that what users linked stays as it is
// when the settings inside grow.
#![tactic(auto)]

ghost use Rattle.std.specs.Prelude.{◌≡◌};
ghost use Rattle.face_settings.specs.Settings.{inner, inner_encoder, outer, outer_encoder};

#[repr(C)]
#[derive(Drop)]
pub struct PictureSettings {
    pub patch_size: usize,
    pub spatial_merge_size: usize,
    pub image_size: usize,
    pub resize_rule: usize,
    pub mean: [f32; 3],
    pub deviation: [f32; 3],
}

#[repr(C)]
#[derive(Drop)]
pub struct EncoderSettings {
    pub picture: PictureSettings,
    pub hidden_size: usize,
    pub num_heads: usize,
    pub head_dim: usize,
    pub num_layers: usize,
    pub intermediate_size: usize,
    pub text_hidden_size: usize,
    pub projector_bias: usize,
    pub scaling: f32,
}

impl From<PictureSettings> for picture_limits::PictureSettings {
    ghost from_gives = { λ s t. t ≡ inner s };

    fn from(s: PictureSettings) -> Self {
        let mean = s.mean;
        let deviation = s.deviation;
        picture_limits::PictureSettings {
            patch_size: s.patch_size,
            spatial_merge_size: s.spatial_merge_size,
            image_size: s.image_size,
            resize_rule: s.resize_rule,
            mean,
            deviation,
        }
    }
}

impl From<EncoderSettings> for encoder_settings::EncoderSettings {
    ghost from_gives = { λ s t. t ≡ inner_encoder s };

    fn from(s: EncoderSettings) -> Self {
        encoder_settings::EncoderSettings {
            picture: s.picture.into(),
            hidden_size: s.hidden_size,
            num_heads: s.num_heads,
            head_dim: s.head_dim,
            num_layers: s.num_layers,
            intermediate_size: s.intermediate_size,
            text_hidden_size: s.text_hidden_size,
            projector_bias: s.projector_bias,
            scaling: s.scaling,
        }
    }
}

impl From<picture_limits::PictureSettings> for PictureSettings {
    ghost from_gives = { λ s t. t ≡ outer s };

    fn from(s: picture_limits::PictureSettings) -> Self {
        let mean = s.mean;
        let deviation = s.deviation;
        PictureSettings {
            patch_size: s.patch_size,
            spatial_merge_size: s.spatial_merge_size,
            image_size: s.image_size,
            resize_rule: s.resize_rule,
            mean,
            deviation,
        }
    }
}

impl From<encoder_settings::EncoderSettings> for EncoderSettings {
    ghost from_gives = { λ s t. t ≡ outer_encoder s };

    fn from(s: encoder_settings::EncoderSettings) -> Self {
        EncoderSettings {
            picture: s.picture.into(),
            hidden_size: s.hidden_size,
            num_heads: s.num_heads,
            head_dim: s.head_dim,
            num_layers: s.num_layers,
            intermediate_size: s.intermediate_size,
            text_hidden_size: s.text_hidden_size,
            projector_bias: s.projector_bias,
            scaling: s.scaling,
        }
    }
}
