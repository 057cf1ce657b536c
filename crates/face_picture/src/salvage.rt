// Patterns of damaged patches back to the picture.
ghost use Rattle.std.specs.Prelude.{◌≡◌, length};
ghost use Rattle.picture_salvage.specs.Salvage.{salvaged, saved_out, list_out};
ghost use Rattle.face_settings.specs.Settings.{inner};
ghost use Rattle.face_picture.specs.Reports.{salvage_report};

use face_settings::PictureSettings;
use picture_limits::Refusal;
use picture_salvage::Salvaged;

// The picture's sides, and how many samples were bad.
#[repr(C)]
#[derive(Drop)]
pub struct SalvageReport {
    pub number: u32,
    pub height: usize,
    pub width: usize,
    pub bad: usize,
}

impl From<Result<Salvaged, Refusal>> for SalvageReport {
    ghost from_gives = { λ found r. r ≡ salvage_report found };

    fn from(found: Result<Salvaged, Refusal>) -> SalvageReport {
        match found {
            Ok(p) => SalvageReport {
                number: 0,
                height: p.height,
                width: p.width,
                bad: p.bad,
            },
            Err(r) => SalvageReport {
                number: u32::from(r),
                height: 0,
                width: 0,
                bad: 0,
            },
        }
    }
}

pub fn salvage(
    s: PictureSettings,
    patches: &[u32],
    grid_h: usize,
    grid_w: usize,
    out: &mut [u8],
    list: &mut [u32],
) -> SalvageReport
    ensures answer { result ≡ salvage_report (salvaged (inner s) patches.now grid_h grid_w (length out.old) (length list.old)) }
    ensures output { out.new ≡ saved_out (inner s) patches.now grid_h grid_w (length list.old) out.old }
    ensures entries { list.new ≡ list_out (inner s) patches.now grid_h grid_w (length out.old) list.old }
{
    let found = picture_salvage::salvage(s.into(), patches, grid_h, grid_w, out, list);
    SalvageReport::from(found)
}
