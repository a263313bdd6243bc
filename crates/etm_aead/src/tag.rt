//! The tag of a ciphertext, and the comparison of two tags.

ghost use Rattle.std.specs.Prelude.{◌≡◌, ◌++◌, ◌↔◌, IsTrue, length};
ghost use Rattle.std.specs.Int.{w64, to_le_bytes};
ghost use Rattle.hmac_hkdf.specs.Hmac.{hmac_of};

use hmac_hkdf::Mac;

// The tag under a tag key.
pub fn compute_tag(key: &[u8; 32], ad: &[u8], ciphertext: &[u8]) -> [u8; 32]
    ensures { result ≡ hmac_of key.now
        (ad.now ++ ciphertext.now ++ to_le_bytes w64 (length ad.now) ++ to_le_bytes w64
        (length ciphertext.now)) }
{
    let mut mac = Mac::new(key);
    mac.update(ad);
    mac.update(ciphertext);
    mac.update(&(ad.len() as u64).to_le_bytes());
    mac.update(&(ciphertext.len() as u64).to_le_bytes());
    mac.finish()
}

// Whether two tags are equal. All bytes are looked at, wherever the first difference is.
pub fn is_equal(a: &[u8; 32], b: &[u8; 32]) -> bool
    ensures { IsTrue result ↔ (a.now ≡ b.now) }
{
    let mut difference = 0;
    'bytes: for i in 0..32 {
        difference |= a[i] ^ b[i];
    }
    difference == 0
}
