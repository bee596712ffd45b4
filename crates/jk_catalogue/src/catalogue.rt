//! Images that are listed.

ghost use Rattle.std.specs.Prelude.{◌≡◌, ◌⊎◌, List, ℕ, is_some, MatchResult, IfOk, IfErr};
ghost use Rattle.std.specs.List.{flat_map};
ghost use Rattle.jk_math.specs.Memory.{IsMemory};
ghost use Rattle.jk_catalogue.specs.Images.{Image, image_of, IsImageFile, IsCutOf, IsFileGiven, IsCutGiven, HasNoCut, MayRefuse, Within};

use jk_math::Fault;
use jk_window::View;
use std::alloc::Global;

/// Images that are listed, and whose files can be read.
pub trait Catalogue {
    ghost use Rattle.jk_window.specs.declared.view.View.{View};

    // It stands for these images, in order.
    ghost stands: { Self → List Image → Type 0 };

    // It will give the files of these images.
    ghost keeps: { Self → List Image → Type 0 };

    // Between the two the file of the image of this name couldn't be read, or other bytes were read
    // in its place.
    ghost broke: { Self → List ℕ → Self → Type 0 };

    // Between the two this file was read for the image of this name, and taken for the image's.
    ghost reads: { Self → List ℕ → List ℕ → Self → Type 0 };

    // Between the two such a window was cut of what was read for the image of this name, and taken
    // for the image's.
    ghost cuts: { Self → List ℕ → View → Self → List ℕ → Type 0 };

    // For the image of this name such a cut may have been made, of what was taken for the image's.
    ghost made: { Self → List ℕ → View → List ℕ → Type 0 };

    // From the first state it may come to the second.
    ghost steps: { Self → Self → Type 0 };

    /// The lines of all images, in order.
    fn lines(&self, alloc: Global) -> Result<Vec<u8>, Fault>
        ensures lines { (images : List Image) → stands self.now images
            → IfOk result (λ v. v.items ≡ flat_map (λ i. i.line) images) }
        ensures memory { IfErr result (λ e. IsMemory e) };

    /// Whether there is an image of this name.
    fn has(&self, name: &[u8]) -> bool
        ensures { (images : List Image) → stands self.now images → result ≡ is_some (image_of name.now images) };

    /// The file of an image.
    fn whole(&mut self, alloc: Global, name: &[u8]) -> Result<Vec<u8>, Fault>
        ensures gives { (images : List Image) → stands self.old images → MatchResult result
            (λ v. IsFileGiven (image_of name.now images) reads self.old name.now self.new v.items)
            (λ e. MayRefuse (image_of name.now images) (broke self.old name.now self.new) ⊥ e) }
        // A file that is kept is what is given.
        ensures same { (images : List Image) → stands self.old images → keeps self.old images
            → IfOk result (λ v. IsImageFile (image_of name.now images) v.items) }
        ensures stands { (images : List Image) → stands self.old images → stands self.new images }
        ensures keeps { (images : List Image) → keeps self.old images → keeps self.new images }
        ensures lasts { Within (made self.old) (made self.new) }
        ensures steps { steps self.old self.new };

    /// The file of a window of an image.
    fn window(&mut self, alloc: Global, name: &[u8], asked: View) -> Result<Vec<u8>, Fault>
        ensures gives { (images : List Image) → stands self.old images → MatchResult result
            (λ v. IsCutGiven (image_of name.now images) asked cuts self.old name.now self.new v.items)
            (λ e. MayRefuse (image_of name.now images) (broke self.old name.now self.new)
            (HasNoCut (image_of name.now images) asked) e) }
        // Of a file that is kept it is the window.
        ensures same { (images : List Image) → stands self.old images → keeps self.old images
            → IfOk result (λ v. IsCutOf (image_of name.now images) asked v.items) }
        ensures made { IfOk result (λ v. made self.new name.now asked v.items) }
        ensures stands { (images : List Image) → stands self.old images → stands self.new images }
        ensures keeps { (images : List Image) → keeps self.old images → keeps self.new images }
        ensures lasts { Within (made self.old) (made self.new) }
        ensures steps { steps self.old self.new };

    // It may stay where it is.
    ghost stays: { (s : Self) → steps s s };
}
