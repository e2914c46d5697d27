ghost use Rattle.std.specs.Prelude.{◌≡◌};
ghost use Rattle.cable_base.specs.Hash.{channel_hash_of};

use sha2::{Digest, Sha256};

/// The hash of a stream's name, by which the table finds its rows: the first eight bytes of the name's SHA-256 (FIPS 180-4), read as
/// a signed number, high byte first. It takes no memory.
#[tactic(auto, unfolding(crate::specs::Hash::channel_hash_of))]
pub fn channel_hash(name: &str) -> i64
    ensures { result ≡ channel_hash_of name.now }
{
    let digest = Sha256::digest(name.as_bytes());
    let [a, b, c, d, e, f, g, h, ..] = digest;
    i64::from_be_bytes([a, b, c, d, e, f, g, h])
}
