//! What no clause says, and a caller over every collection.
mod buckets;
mod caller;
mod counter;
mod drawn;
mod inserting;
mod layouts;
mod mark;
mod refused;
mod rows;
mod sets;
mod words;

// The next number of a fixed row, by a multiplication and a sum.
fn next(seed: u64) -> u64 {
    seed.wrapping_mul(6364136223846793005)
        .wrapping_add(1442695040888963407)
}
