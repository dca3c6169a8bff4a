//! The fingerprint of bytes.
ghost use Rattle.std.specs.Prelude.{◌≡◌};
ghost use Rattle.machine_text.specs.Fingerprint.{fingerprint};

use sha2::{Digest, Sha256};

/// The characters of a fingerprint: two for each byte of a digest.
pub const FINGERPRINT_SIZE: usize = 64;

/// The fingerprint of bytes: their SHA-256 in hexadecimal digits.
pub fn fingerprint(bytes: &[u8]) -> [u8; FINGERPRINT_SIZE]
    ensures { result ≡ fingerprint bytes.now }
{
    let digest = Sha256::digest(bytes);
    let mut text = [0; FINGERPRINT_SIZE];
    hex::encode_to_slice(digest, &mut text).unwrap();
    text
}
