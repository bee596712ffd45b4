//! Where the windows of a catalogue come from.

ghost use Rattle.std.specs.Prelude.{◌≡◌, ◌⊎◌, List, ℕ, Option, IfOk, IfErr};
ghost use Rattle.jk_web.specs.Images.{Image, image_of, IsCutOf, IsOtherRead, HasNoCut, MayRefuse};
ghost use Rattle.jk_web.specs.Cuts.{Within, AreOf, IsGiven};

use jk_catalogue::Catalogue;
use jk_math::Fault;
use jk_window::View;
use std::alloc::Global;

/// Where the windows of a catalogue come from.
pub(crate) trait Windows<C: Catalogue> {
    ghost use Rattle.jk_window.specs.declared.view.View.{View};

    // It has such a cut for the image of this name.
    ghost has: { Self → List ℕ → View → List ℕ → Type 0 };

    // Between two states of the catalogue such a cut may be given in the place of the image's.
    ghost others: { Option Image → C → List ℕ → View → C → List ℕ → Type 0 };

    /// The file of a window of an image.
    fn window(
        &mut self,
        alloc: Global,
        catalogue: &mut C,
        name: &[u8],
        asked: View,
    ) -> Result<Vec<u8>, Fault>
        // Where each cut that it has may have been made.
        ensures gives { (images : List Image) → C.stands catalogue.old images
            → Within (has self.old) (C.made catalogue.old)
            → IfOk result (λ v. IsCutOf (image_of name.now images) asked v.items
            ⊎ others (image_of name.now images) catalogue.old name.now asked catalogue.new v.items) }
        ensures refuses { (images : List Image) → C.stands catalogue.old images
            → IfErr result (λ e. MayRefuse (image_of name.now images) (C.broke catalogue.old name.now catalogue.new)
            (HasNoCut (image_of name.now images) asked) e) }
        // Where each cut that it has is an image's, and the files are kept.
        ensures same { (images : List Image) → C.stands catalogue.old images → C.keeps catalogue.old images
            → AreOf (has self.old) images
            → IfOk result (λ v. IsCutOf (image_of name.now images) asked v.items) }
        ensures made { Within (has self.old) (C.made catalogue.old)
            → IfOk result (λ v. C.made catalogue.new name.now asked v.items) }
        // A cut that it has is given without a look at the catalogue.
        ensures unread { (b : List ℕ) → has self.old name.now asked b → catalogue.new ≡ catalogue.old }
        // It takes up at most what it gives.
        ensures has { (n : List ℕ) (a : View) (b : List ℕ) → has self.new n a b
            → has self.old n a b ⊎ IsGiven result name.now asked n a b }
        ensures stands { (images : List Image) → C.stands catalogue.old images → C.stands catalogue.new images }
        ensures keeps { (images : List Image) → C.keeps catalogue.old images → C.keeps catalogue.new images }
        ensures lasts { Within (C.made catalogue.old) (C.made catalogue.new) }
        ensures steps { C.steps catalogue.old catalogue.new };
}

/// Windows as the catalogue makes them: none is kept.
#[derive(Clone, Copy)]
pub(crate) struct Direct;

impl<C: Catalogue> Windows<C> for Direct {
    ghost has = { λ d n a b. ⊥ };

    ghost others = { IsOtherRead C.cuts };

    fn window(
        &mut self,
        alloc: Global,
        catalogue: &mut C,
        name: &[u8],
        asked: View,
    ) -> Result<Vec<u8>, Fault> {
        catalogue.window(alloc, name, asked)
    }
}
