ghost use Rattle.std.specs.Prelude.{◌≡◌, ◌-◌, ◌*◌, ◌≤◌};
ghost use Rattle.aia_regs.specs.declared.limits.TheConstants.{FILE_WORDS};
ghost use Rattle.aia_model.specs.Image.{image_version, is_loadable};

use aia_major::{fits_hvictl, fits_hvip, fits_hviprio};
use aia_model::Part;
use aia_regs::bit;
use aia_regs::limits::SELECT_NUMBERS;

/// The version of images that there is.
pub(crate) const IMAGE_VERSION: u32 = 1;

/// Tells whether a part may be loaded where each set of a file has so many words, 1 to
/// `FILE_WORDS`: it says what an image of such a file may say.
///
/// Profile.
pub(crate) fn is_loadable(part: &Part, words: u32) -> bool
    requires some { 1 ≤ words }
    requires few { words ≤ FILE_WORDS }
    ensures { result ≡ is_loadable (64 * words - 1) part.now }
{
    let greatest = 64 * words - 1;
    match *part {
        Part::Image {
            version,
            n,
            threshold,
            select,
            ..
        } => {
            version == IMAGE_VERSION
                && n == greatest
                && threshold <= greatest
                && select < SELECT_NUMBERS
        }
        Part::Majors { injected, enabled } => fits_hvip(injected) && fits_hvip(enabled),
        Part::Prio { hviprio, hvictl } => fits_hviprio(hviprio) && fits_hvictl(hvictl),
        Part::Word { w, pending, enable } => {
            w < u64::from(words) && (w > 0 || !bit(pending, 0) && !bit(enable, 0))
        }
    }
}
