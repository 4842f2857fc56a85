// A store that is being loaded: a memory that takes images, any number or none, and no turns. Opening moves it into a
// version store, which takes turns and no images; closing that store hands the memory back.
ghost use Rattle.std.specs.Prelude.{◌≡◌, ℕ, true, false, length, is_ok, slice_index};
ghost use Rattle.versions.specs.Plain.{opened};
ghost use Rattle.player.specs.Image.{pairs_of, image_words, load_answer, loaded_words, HoldsPairs, OutsidePairs};

use crate::fault::ImageFault;
use crate::image::load_image;
use memory::Memory;
use std::marker::Model;
use stores::VersionStore;

pub struct Loading<M> {
    memory: M,
}

// A clause sees it as its memory.
impl<M> Model for Loading<M> {
    ghost Value = { M };

    ghost view = { λ l. l.memory };
}

impl<M: Memory> Loading<M> {
    // Over a memory that is open, with its words as they are.
    pub fn new(memory: M) -> Self
        requires { M.Memory.sound memory }
        ensures memory { result ≡ memory }
        ensures kept { M.Memory.sound result }
    {
        Self { memory }
    }

    // Puts the words of an image into the memory, or refuses and changes nothing.
    pub fn load(&mut self, image: &[u8]) -> Result<(), ImageFault>
        requires { M.Memory.sound self.old }
        ensures answer { result ≡ load_answer (length (M.Memory.words self.old)) image.now }
        ensures after { M.Memory.words self.new ≡ loaded_words (M.Memory.words self.old) image.now }
        ensures laid { is_ok result ≡ true → HoldsPairs (pairs_of image.now) (image_words image.now) (M.Memory.words self.new) }
        ensures outside { (a : ℕ) → OutsidePairs a (pairs_of image.now) → slice_index (M.Memory.words self.new) a ≡ slice_index (M.Memory.words self.old) a }
        ensures refused { is_ok result ≡ false → self.new ≡ self.old }
        ensures beside { M.Memory.spare self.new ≡ M.Memory.spare self.old }
        ensures kept { M.Memory.sound self.new }
    {
        load_image(&mut self.memory, image)
    }

    // Opens a version store over the memory as it is loaded. No task is active.
    pub fn open<S: VersionStore<Below = M>>(self) -> S
        requires { M.Memory.sound self }
        ensures plain { S.VersionStore.plain result ≡ opened (M.Memory.words self) }
        ensures opens { S.VersionStore.opens result }
        ensures beside { S.VersionStore.spare result ≡ M.Memory.spare self }
        ensures kept { S.VersionStore.sound result }
    {
        S::open(self.close())
    }

    // Gives the memory back, where no store is to be opened: after a refused image, say.
    pub fn close(self) -> M
        ensures { result ≡ self }
    {
        let Loading { memory } = self;
        memory
    }
}
