//! Laws of what the bytes of a spool stand for. Each function does nothing: its contract is the law, and the check proves it.
ghost use Rattle.std.specs.Prelude.{◌≡◌, ◌≤◌, ℕ, List};
ghost use Rattle.kumo_disk.specs.Disk.{Image};
ghost use Rattle.spool_format.specs.declared.kept.Kept.{Kept};
ghost use Rattle.spool_store.specs.Content.{Item};
ghost use Rattle.spool_store.specs.Reading.{Reading, Reads, Sound, Broken, Recovers};
ghost use Rattle.spool_store.specs.Crash.{MayLeave};
ghost use Rattle.spool_store.specs.Store.{live_size_of, IsOpenFault};
ghost use Rattle.spool_store.specs.declared.faults.OpenFault.TheVariants as open_fault;
ghost use Rattle.spool_store.specs.declared.limits.TheConstants.{AREA_LIMIT};

use kumo_disk::Disk;

/// The bytes of both areas stand for one thing: for one list of pending messages, or for damage of one area from one offset on.
pub fn an_image_has_one_reading()
    ensures one { (image : Image) (a b : Reading) → Reads image a → Reads image b → a ≡ b }
    ensures sound { (image : Image) (a b : List Item) → Reads image (Sound a) → Reads image (Sound b) → a ≡ b }
    ensures area { (image : Image) (m n at to : ℕ) → Reads image (Broken m at) → Reads image (Broken n to) → m ≡ n }
    ensures offset { (image : Image) (m n at to : ℕ) → Reads image (Broken m at) → Reads image (Broken n to) → at ≡ to }
    ensures apart { (image : Image) (items : List Item) (n at : ℕ) → Reads image (Sound items) → Reads image (Broken n at) → ⊥ }
    ensures recovered { (image : Image) (a b : List Kept) → Recovers image a → Recovers image b → a ≡ b }
{}

/// Opening what a crash leaves of a store whose messages are on the disk gives these messages and no others. It is not refused for
/// its bytes, as long as the messages may not need more than an area may have.
pub fn opening_again_answers_the_same<D: Disk>(disk: &D)
    ensures answer { (kept : List Kept) (image : Image) → MayLeave kept (D.seen disk.now) image → Recovers image kept }
    ensures same { (kept again : List Kept) (image : Image) → MayLeave kept (D.seen disk.now) image
        → Recovers image again → again ≡ kept }
    ensures never_damaged { (kept : List Kept) (image : Image) → MayLeave kept (D.seen disk.now) image
        → (area at : ℕ) → IsOpenFault image (open_fault.Damaged area at) → ⊥ }
    ensures never_large { (kept : List Kept) (image : Image) → MayLeave kept (D.seen disk.now) image
        → live_size_of kept ≤ AREA_LIMIT → (pending : ℕ) → IsOpenFault image (open_fault.TooLarge pending) → ⊥ }
{}
