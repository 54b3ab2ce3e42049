// Entries one after another, as the code comes upon them: those of an index, or of a sheet's records. It is no Iterator, whose `next` may ask
// nothing: this one asks that an entry is left and stands within the bytes, so that it answers without a test.
ghost use Rattle.std.specs.Prelude.{List, ◌∷◌, ◌≡◌, ◌*◌, ◌^◌, ◌<◌, length};
ghost use Rattle.layout.specs.declared.Entry.{Entry};

use layout::Entry;

pub trait Entries: Copy {
    // Those that are left.
    ghost left: { Self → List Entry };

    // That all of them stand within the bytes.
    ghost stand: { Self → Type 0 };

    fn count(&self) -> usize
        requires { stand self.now }
        ensures { (result ≡ length (left self.now)) × (result < 2 ^ 32) };

    // The first of them, which is left no longer.
    fn next(&mut self) -> Entry
        requires { stand self.old × (0 < length (left self.old)) }
        ensures first { left self.old ≡ result ∷ left self.new }
        ensures stands { stand self.new };
}
