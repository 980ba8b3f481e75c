//! Seeds.

/// The seed of the keys of all frames that are made here.
pub const FRAME_SEED: [u8; 32] = [7; 32];

/// The seed 00 01 .. 1f.
pub fn seed() -> [u8; 32] {
    let mut seed = [0; 32];
    for i in 0..32 {
        seed[i] = i as u8;
    }
    seed
}
