// The layout that each make of store uses.
ghost use Rattle.std.specs.Prelude.{◌≡◌, ℕ, List, refl};
ghost use Rattle.store.specs.Memory.{places_in};
ghost use Rattle.packed_store.specs.Reading.{table};
ghost use Rattle.store_report.specs.declared.Make.{Make};
ghost use Rattle.store_report.specs.declared.Make.TheVariants.{Slot, Packed};
ghost use Rattle.store_report.specs.Images.{IsImage, image_places, image_contents};

use packed_store::records::Records;
use slot_store::slots::Slots;
use store::memory::Layout;

pub(super) trait Image: Layout {
    ghost make: { Make };

    ghost counts: { (xs : List ℕ) → image_places make xs ≡ places_in Self.PLACE xs };

    ghost holds: { (xs : List ℕ) → image_contents make xs ≡ Self.contents xs };

    ghost is_one: { (xs : List ℕ) → Self.Sound xs → Self.Exact xs → IsImage make xs };

    ghost is_none: { (xs : List ℕ) → Self.Foreign xs → IsImage make xs → ⊥ };
}

impl Image for Slots {
    ghost make = { Slot };

    ghost counts = { λ _. refl };

    ghost holds = { λ _. refl };

    ghost is_one = { λ _ ok _. ok };

    ghost is_none = { λ _ no. no };
}

impl Image for Records {
    ghost make = { Packed };

    ghost counts = { λ _. refl };

    ghost holds = { λ _. refl };

    ghost is_one = { λ _ _ held. held };

    ghost is_none = { λ xs no. no (table xs) };
}
