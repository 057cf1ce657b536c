// config.json to settings.
ghost use Rattle.face_settings.specs.Settings.{inner_encoder};
ghost use Rattle.kyzgultam.specs.Face.{ConfigReports};

use config::{config, no_settings};
use face_settings::EncoderSettings;

// The byte of 13 or 14, and the settings: zeros where they were refused.
#[repr(C)]
#[derive(Drop)]
pub struct ConfigReport {
    pub number: u32,
    pub place: usize,
    pub settings: EncoderSettings,
}

#[unsafe(no_mangle)]
pub extern "C" fn kz_config(lent: EncoderSettings, text: &[u8]) -> ConfigReport
    ensures { ConfigReports (inner_encoder lent) text.now result }
{
    match config(lent.into(), text) {
        Ok(settings) => ConfigReport {
            number: 0,
            place: 0,
            settings: settings.into(),
        },
        Err(refused) => ConfigReport {
            number: u32::from(refused.why),
            place: refused.place,
            settings: no_settings().into(),
        },
    }
}
