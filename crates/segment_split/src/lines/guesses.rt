//! Guesses of where a height stands in a list, a direct-mapped cache: for each height one place, by a multiplicative hash of it, so
//! that a new guess may take an older one's place. Whoever asks has to look whether the guess is right. It takes a few steps to ask or
//! to tell.

ghost use Rattle.std.specs.Prelude.{IsOkUnless};

use plane_base::fault::Fault;
use std::alloc::Global;

// Heights are spread over the slots by products with this odd number, 2^64 over the golden ratio.
const SPREAD: u64 = 0x9E37_79B9_7F4A_7C15;

const FEWEST: usize = 64;

const MOST: usize = 1 << 31;

/// A guessed place for each height.
#[derive(Drop)]
pub struct Guesses {
    slots: Vec<u32>,
}

impl Guesses {
    /// Guesses place 0 for each height, without storage.
    pub fn new(alloc: Global) -> Self {
        Guesses {
            slots: Vec::new(alloc),
        }
    }

    /// Forgets all, and takes storage to tell about so many heights apart.
    pub fn reset(&mut self, many: usize) -> Result<(), Fault>
        ensures memory { IsOkUnless result Fault.Memory }
    {
        self.slots.clear();
        self.slots.resize(slots_for(many), 0)?;
        Ok(())
    }

    /// The place at which the height may stand.
    pub fn place(&self, y: i64) -> usize {
        let slot = slot_of(y, self.slots.len());
        if slot < self.slots.len() {
            self.slots[slot] as usize
        } else {
            0
        }
    }

    /// Guesses from now on that the height stands at the place.
    pub fn tell(&mut self, y: i64, place: usize) {
        let slot = slot_of(y, self.slots.len());
        if slot < self.slots.len() {
            self.slots[slot] = place.min(u32::MAX as usize) as u32;
        }
    }
}

// A power of two, so many or more where the limits allow it.
fn slots_for(many: usize) -> usize {
    many.max(FEWEST).min(MOST).next_power_of_two()
}

// The slot of a height: as far along so many as its hash, in its upper bits, is along all numbers. It is multiplied twice, since heights
// at one distance from each other may crowd in few slots after one product.
fn slot_of(y: i64, slots: usize) -> usize {
    let product = y.cast_unsigned().wrapping_mul(SPREAD);
    let hash = (product ^ product >> 32).wrapping_mul(SPREAD);
    ((hash >> 32).wrapping_mul(slots as u64) >> 32) as usize
}
