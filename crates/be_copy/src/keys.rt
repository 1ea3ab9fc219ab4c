//! A number for each name, by which its rows are filed: a short name is its own, and a longer one has the first 8 bytes of its SHA-256.
//! Names may share a number, and many that do are dear to find.

ghost use Rattle.std.specs.Prelude.{◌≡◌, ◌≤◌, ◌-◌, ◌++◌, length, replicate};
ghost use Rattle.be_copy.specs.Keys.{name_key};

use be_base::Name;
use sha2::{Digest, Sha256};

/// The bytes of a number.
const KEY_BYTES: usize = 8;

/// The key of a name.
pub fn name_key(name: &Name) -> u64
    ensures { result ≡ name_key name.now }
{
    let bytes = name.bytes();
    if bytes.len() <= KEY_BYTES {
        return u64::from_be_bytes(padded(bytes));
    }
    let digest: [u8; 32] = Sha256::digest(bytes);
    match digest.first_chunk::<KEY_BYTES>() {
        Some(front) => u64::from_be_bytes(*front),
        None => unreachable!(),
    }
}

// The bytes, with zeros behind them.
fn padded(bytes: &[u8]) -> [u8; KEY_BYTES]
    requires { length bytes.now ≤ 8 }
    ensures { result ≡ bytes.now ++ replicate (8 - length bytes.now) 0 }
{
    let mut front = [0; KEY_BYTES];
    front[..bytes.len()].copy_from_slice(bytes);
    front
}
