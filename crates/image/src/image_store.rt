// Stores: an image's numbers over the caller's buffer. Making one never refuses; every call checks it.
ghost use Rattle.std.specs.Prelude.{◌≡◌, length, drop, is_ok, IfOk, if◌then◌else◌, OnOk};
ghost use Rattle.image.specs.Refusals.{reply};
ghost use Rattle.image.specs.Stores.{elements, elements_mut, source_answer, target_answer, crop_answer, part_numbers, place, row_length, copy_answer, image, laid, LaidOn};
ghost use Rattle.image.specs.Images.{image_of};

use crate::element::Element;
use crate::numbers::{Numbers, Part, check_same};
use crate::rows::copy_rows;
use crate::source_rows::SourceRows;
use crate::validation::PicScaleError;

#[derive(Drop)]
pub struct ImageStore<'a, T> {
    pub buffer: &'a [T],
    pub numbers: Numbers,
}

#[derive(Drop)]
pub struct ImageStoreMut<'a, T> {
    pub buffer: &'a mut [T],
    pub numbers: Numbers,
}

impl<'a, T: Element> ImageStore<'a, T> {
    // A source over the caller's buffer.
    pub fn new(buffer: &'a [T], numbers: Numbers) -> ImageStore<'a, T>
        ensures held { elements result ≡ buffer.now }
        ensures numbers { result.numbers ≡ numbers }
    {
        ImageStore { buffer, numbers }
    }

    // The store check of a source.
    #[tactic(auto, unfolding(crate::specs::Stores::source_answer))]
    pub fn validate(&self) -> Result<(), PicScaleError>
        ensures { reply result ≡ source_answer T.Element.BYTES self.now.numbers (length (elements self.now)) }
    {
        self.numbers.check(
            T::byte_size(),
            self.buffer.len(),
            PicScaleError::SourceImageIsTooLarge,
        )
    }

    // The rows of a source that passes its check.
    #[tactic(auto, using(crate::proofs::Granted::source_sound, crate::proofs::Granted::exact_pitch))]
    pub fn rows(&self) -> Result<SourceRows<'a, T>, PicScaleError>
        ensures reply { reply result ≡ source_answer T.Element.BYTES self.now.numbers (length (elements self.now)) }
        ensures image { IfOk result (λ r. image_of r ≡ image self.now.numbers (elements self.now)) }
        ensures width { IfOk result (λ r. r.row_length ≡ row_length self.now.numbers) }
        ensures height { IfOk result (λ r. r.height ≡ self.now.numbers.height) }
    {
        self.validate()?;
        Ok(SourceRows {
            elements: self.buffer,
            row_length: self.numbers.width * self.numbers.channels,
            stride: self.numbers.pitch(),
            height: self.numbers.height,
        })
    }

    // A part of a source, over the same buffer.
    #[tactic(auto, using(crate::proofs::Granted::source_sound, crate::proofs::Granted::within, crate::proofs::Granted::placed, crate::proofs::Granted::exact_pitch))]
    pub fn crop(&self, part: Part) -> Result<ImageStore<'_, T>, PicScaleError>
        ensures reply { reply result ≡ crop_answer T.Element.BYTES self.now.numbers (length (elements self.now)) part.x part.y part.width part.height }
        ensures part { IfOk result (λ s. (s.numbers ≡ part_numbers self.now.numbers part.width part.height) × (elements s ≡ drop (place self.now.numbers part.x part.y) (elements self.now))) }
    {
        self.validate()?;
        part.check(self.numbers.size())?;
        let numbers = self.numbers.part(part);
        let offset = part.y * numbers.stride + part.x * numbers.channels;
        Ok(ImageStore {
            buffer: &self.buffer[offset..],
            numbers,
        })
    }

    // Copies the pixels into a destination of the same channels and size; its gaps stay as they are.
    #[tactic(auto, using(crate::proofs::Granted::source_sound, crate::proofs::Granted::target_sound, crate::proofs::Granted::same_size, crate::proofs::Granted::exact_pitch, crate::proofs::Copied::laid_by, crate::proofs::Copied::copied_on, crate::proofs::Copied::same_fit), unfolding(crate::specs::Stores::same_answer))]
    pub fn copied_to_mut(&self, into: &mut ImageStoreMut<'_, T>) -> Result<(), PicScaleError>
        ensures reply { reply result ≡ copy_answer T.Element.BYTES into.old.numbers (length (elements_mut into.old)) self.now.numbers (length (elements self.now)) }
        ensures same { into.new.numbers ≡ into.old.numbers }
        ensures place { into.new.buffer.ghost_name ≡ into.old.buffer.ghost_name }
        ensures after { elements_mut into.new ≡ (if is_ok result then laid into.old.numbers (image self.now.numbers (elements self.now)) (elements_mut into.old) else elements_mut into.old) }
        ensures shown { OnOk result (LaidOn into.old.numbers (image self.now.numbers (elements self.now)) (elements_mut into.old) (elements_mut into.new)) }
    {
        into.validate()?;
        let rows = self.rows()?;
        check_same(into.numbers, self.numbers)?;
        copy_rows(&rows, into.buffer, into.numbers.pitch());
        Ok(())
    }
}

impl<'a, T: Element> ImageStoreMut<'a, T> {
    // The store check of a destination. (A trait over both stores, for one line that differs, would be longer.)
    #[tactic(auto, unfolding(crate::specs::Stores::target_answer))]
    pub fn validate(&self) -> Result<(), PicScaleError>
        ensures { reply result ≡ target_answer T.Element.BYTES self.now.numbers (length (elements_mut self.now)) }
    {
        self.numbers.check(
            T::byte_size(),
            self.buffer.len(),
            PicScaleError::DestinationImageIsTooLarge,
        )
    }
}
