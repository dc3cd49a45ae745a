//! Numbers in bytes, the lowest byte first.

ghost use Rattle.std.specs.Prelude.{◌≡◌, ◌*◌, ◌^◌, ◌<◌, length};
ghost use Rattle.rb_bits.specs.LittleEndian.{IsByteCount, from_le_bytes, to_le_bytes};

/// The number that 1, 2, 4 or 8 bytes spell, the lowest first.
pub fn load_le(bytes: &[u8]) -> u64
    requires { IsByteCount (length bytes.now) }
    ensures value { result ≡ from_le_bytes bytes.now }
    ensures fits { result < 2 ^ (8 * length bytes.now) }
    ensures stored { to_le_bytes (length bytes.now) result ≡ bytes.now }
{
    match bytes.len() {
        1 => u64::from(bytes[0]),
        2 => u64::from(u16::from_le_bytes([bytes[0], bytes[1]])),
        4 => u64::from(u32::from_le_bytes([bytes[0], bytes[1], bytes[2], bytes[3]])),
        _ => u64::from_le_bytes([
            bytes[0], bytes[1], bytes[2], bytes[3], bytes[4], bytes[5], bytes[6], bytes[7],
        ]),
    }
}

/// Writes `w` into 1, 2, 4 or 8 bytes, in which it fits, the lowest first.
pub fn store_le(bytes: &mut [u8], w: u64)
    requires count { IsByteCount (length bytes.old) }
    requires fits { w < 2 ^ (8 * length bytes.old) }
    ensures value { bytes.new ≡ to_le_bytes (length bytes.old) w }
    ensures loaded { from_le_bytes bytes.new ≡ w }
{
    match bytes.len() {
        1 => bytes.copy_from_slice(&(w as u8).to_le_bytes()),
        2 => bytes.copy_from_slice(&(w as u16).to_le_bytes()),
        4 => bytes.copy_from_slice(&(w as u32).to_le_bytes()),
        _ => bytes.copy_from_slice(&w.to_le_bytes()),
    }
}
