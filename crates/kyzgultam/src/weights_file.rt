// A safetensors file to weights.
ghost use Rattle.face_settings.specs.Settings.{inner_encoder};
ghost use Rattle.kyzgultam.specs.Face.{WeightsReports};

use face_settings::EncoderSettings;
use weights::weights;

// How many floats were read; of a refusal the tensor, of which the first is 1 and 0 is none, and the byte of the file.
#[repr(C)]
#[derive(Drop)]
pub struct WeightsReport {
    pub number: u32,
    pub floats: usize,
    pub tensor: usize,
    pub place: usize,
}

#[unsafe(no_mangle)]
pub extern "C" fn kz_weights(s: EncoderSettings, file: &[u8], out: &mut [u32]) -> WeightsReport
    ensures { WeightsReports (inner_encoder s) file.now out.old out.new result }
{
    match weights(s.into(), file, out) {
        Ok(floats) => WeightsReport {
            number: 0,
            floats,
            tensor: 0,
            place: 0,
        },
        Err(refused) => WeightsReport {
            number: u32::from(refused.why),
            floats: 0,
            tensor: refused.tensor,
            place: refused.place,
        },
    }
}
