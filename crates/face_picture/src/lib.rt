// The calls on pictures: settings turned, the call, and its answer as a report.
#![tactic(auto)]

pub mod salvage;

ghost use Rattle.std.specs.Prelude.{◌≡◌, length};
ghost use Rattle.picture.specs.Preprocess.{preprocessed, patches_out};
ghost use Rattle.picture_restore.specs.Restore.{restored, bytes_out};
ghost use Rattle.face_settings.specs.Settings.{inner};
ghost use Rattle.face_picture.specs.Reports.{preprocess_report, restore_report, place_of};

use face_settings::PictureSettings;
use picture::Patches;
use picture_limits::Refusal;
use picture_restore::Picture;

#[repr(C)]
#[derive(Drop)]
pub struct PreprocessReport {
    pub number: u32,
    pub grid_h: usize,
    pub grid_w: usize,
    pub floats: usize,
}

#[repr(C)]
#[derive(Drop)]
pub struct RestoreReport {
    pub number: u32,
    pub height: usize,
    pub width: usize,
}

impl From<Result<Patches, Refusal>> for PreprocessReport {
    ghost from_gives = { λ found r. r ≡ preprocess_report found };

    fn from(found: Result<Patches, Refusal>) -> PreprocessReport {
        match found {
            Ok(p) => PreprocessReport {
                number: 0,
                grid_h: p.grid_h,
                grid_w: p.grid_w,
                floats: p.floats,
            },
            Err(r) => PreprocessReport {
                number: u32::from(r),
                grid_h: 0,
                grid_w: 0,
                floats: 0,
            },
        }
    }
}

impl From<Result<Picture, Refusal>> for RestoreReport {
    ghost from_gives = { λ found r. r ≡ restore_report found };

    fn from(found: Result<Picture, Refusal>) -> RestoreReport {
        match found {
            Ok(p) => RestoreReport {
                number: 0,
                height: p.height,
                width: p.width,
            },
            Err(r) => RestoreReport {
                number: u32::from(r),
                height: 0,
                width: 0,
            },
        }
    }
}

// Where a patch lies in the patches: 0 and 0 where there is none.
#[repr(C)]
#[derive(Drop)]
pub struct PatchPlace {
    pub start: usize,
    pub len: usize,
}

pub fn preprocess(
    s: PictureSettings,
    rgb: &[u8],
    height: usize,
    width: usize,
    out: &mut [f32],
) -> PreprocessReport
    ensures answer { result ≡ preprocess_report (preprocessed (inner s) (length rgb.now) height width (length out.old)) }
    ensures output { out.new ≡ patches_out (inner s) rgb.now height width out.old }
{
    let found = picture::preprocess::pixtral_preprocess(s.into(), rgb, height, width, out);
    PreprocessReport::from(found)
}

pub fn restore(
    s: PictureSettings,
    patches: &[f32],
    grid_h: usize,
    grid_w: usize,
    out: &mut [u8],
) -> RestoreReport
    ensures answer { result ≡ restore_report (restored (inner s) patches.now grid_h grid_w (length out.old)) }
    ensures output { out.new ≡ bytes_out (inner s) patches.now grid_h grid_w out.old }
{
    let found = picture_restore::restore(s.into(), patches, grid_h, grid_w, out);
    RestoreReport::from(found)
}

pub fn patch(patches: &[f32], patch_size: usize, i: usize) -> PatchPlace
    ensures { result ≡ place_of (length patches.now) patch_size i }
{
    let len = picture::patch::patch(patches, patch_size, i).len();
    if len == 0 {
        return PatchPlace { start: 0, len: 0 };
    }
    PatchPlace {
        start: i * len,
        len,
    }
}
