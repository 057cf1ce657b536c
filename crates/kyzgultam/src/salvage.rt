// Patterns of damaged patches back to the picture.
ghost use Rattle.std.specs.Prelude.{◌≡◌, length};
ghost use Rattle.picture_salvage.specs.Salvage.{salvaged, saved_out, list_out};
ghost use Rattle.face_settings.specs.Settings.{inner};
ghost use Rattle.face_picture.specs.Reports.{salvage_report};

use face_picture::salvage::SalvageReport;
use face_settings::PictureSettings;

#[unsafe(no_mangle)]
pub extern "C" fn kz_salvage(
    s: PictureSettings,
    patches: &[u32],
    grid_h: usize,
    grid_w: usize,
    out: &mut [u8],
    list: &mut [u32],
) -> SalvageReport
    ensures answer { result ≡ salvage_report (salvaged (inner s) patches.now grid_h grid_w (length out.old) (length list.old)) }
    ensures output { out.new ≡ saved_out (inner s) patches.now grid_h grid_w (length list.old) out.old }
    ensures entries { list.new ≡ list_out (inner s) patches.now grid_h grid_w (length out.old) list.old }
{
    face_picture::salvage::salvage(s, patches, grid_h, grid_w, out, list)
}
