// What a forward call may be handed, and how long each of its buffers has to be.
#![tactic(auto)]

ghost use Rattle.std.specs.Prelude.{◌≡◌};
ghost use Rattle.encoder_settings.specs.Settings.{lengths_of};

pub mod lengths;
pub mod settings;

use picture_limits::PictureSettings;

// Sizes as a caller has them, allowed or not. projector_bias is a number and no bool: `settings_allowed` answers for one that is
// neither 0 nor 1.
#[derive(Clone, Copy)]
pub struct EncoderSettings {
    pub picture: PictureSettings,
    pub hidden_size: usize,
    pub num_heads: usize,
    pub head_dim: usize,
    pub num_layers: usize,
    pub intermediate_size: usize,
    pub text_hidden_size: usize,
    pub projector_bias: usize,
    pub scaling: f32,
}

// The rotary tables that a forward call is lent: full ones, or those of rows and of columns.
#[derive(Clone, Copy)]
pub enum Tables<'a> {
    Full {
        cos: &'a [f32],
        sin: &'a [f32],
    },
    Axes {
        row_cos: &'a [f32],
        row_sin: &'a [f32],
        column_cos: &'a [f32],
        column_sin: &'a [f32],
    },
}

// How many floats each of them has.
#[derive(Clone, Copy, PartialEq, Eq, Debug)]
pub enum TableLengths {
    Full {
        cos: usize,
        sin: usize,
    },
    Axes {
        row_cos: usize,
        row_sin: usize,
        column_cos: usize,
        column_sin: usize,
    },
}

impl<'a> Tables<'a> {
    pub fn lengths(self) -> TableLengths
        ensures { result ≡ lengths_of self.entry }
    {
        match self {
            Tables::Full { cos, sin } => TableLengths::Full {
                cos: cos.len(),
                sin: sin.len(),
            },
            Tables::Axes {
                row_cos,
                row_sin,
                column_cos,
                column_sin,
            } => TableLengths::Axes {
                row_cos: row_cos.len(),
                row_sin: row_sin.len(),
                column_cos: column_cos.len(),
                column_sin: column_sin.len(),
            },
        }
    }
}

// Its attention: a row of scores at a time, or plain, with the full matrix of scores.
#[derive(Clone, Copy, PartialEq, Eq, Debug)]
pub enum Attention {
    RowWise,
    Plain,
}
