// A record: a header, which is the length of a payload and a check of both, and then the payload.
ghost use Rattle.std.specs.{Prelude.{◌≡◌, ◌+◌, ◌<◌, ◌≤◌, ◌^◌, ◌++◌, length, take, drop, IfSome, IfNone}, Int.{w32, from_le_bytes}};
ghost use Rattle.std.specs.List.{fold};
ghost use Rattle.record_log.specs.Records.{add_number, start, header, check_of, record_of, HasNoRecord};

/// The number of bytes in front of each payload: four of its length, and four of a check.
pub const HEADER: usize = 8;

// The check after one more number.
fn add_number(check: u32, n: u32) -> u32
    ensures { result ≡ add_number check n }
{
    ((u64::from(check) * 16_777_619 + u64::from(n)) % (1 << 32)) as u32
}

/// The check that a payload of this length begins with.
pub(crate) fn start(len: u32) -> u32
    ensures { result ≡ start len }
{
    add_number(2_166_136_261, len)
}

/// The check after these bytes.
pub(crate) fn add_bytes(check: u32, bytes: &[u8]) -> u32
    ensures { result ≡ fold add_number check bytes.now }
{
    let mut sum = check;
    'bytes: for b in bytes {
        sum = add_number(sum, u32::from(*b));
    }
    sum
}

/// Makes the header of a payload with this length and this check.
pub(crate) fn header(len: u32, check: u32) -> [u8; HEADER]
    ensures { result ≡ header len check }
{
    let [a, b, c, d] = len.to_le_bytes();
    let [e, f, g, h] = check.to_le_bytes();
    [a, b, c, d, e, f, g, h]
}

/// Returns the length that a header says.
pub(crate) fn told_len(header: &[u8]) -> u32
    requires { 4 ≤ length header.now }
    ensures { result ≡ from_le_bytes w32 (take 4 header.now) }
{
    u32::from_le_bytes([header[0], header[1], header[2], header[3]])
}

/// Returns the payload of the record that stands whole at the front of `bytes`, if one does.
///
/// ```rust
/// assert!(rt; first_record(b"abc").is_none());
/// ```
pub fn first_record(bytes: &[u8]) -> Option<&[u8]>
    ensures small { IfSome result (λ p. length p.now < 2 ^ 32) }
    ensures some { IfSome result (λ p. bytes.now ≡ record_of p.now ++ drop (8 + length p.now) bytes.now) }
    ensures none { IfNone result (HasNoRecord bytes.now) }
{
    if bytes.len() < HEADER {
        return None;
    }
    let len = told_len(bytes);
    let behind = &bytes[HEADER..];
    if behind.len() < len as usize {
        return None;
    }
    let payload = &behind[..len as usize];
    let whole = header(len, add_bytes(start(len), payload));
    if bytes[..HEADER] != whole[..] {
        return None;
    }
    Some(payload)
}

// Makes the header of a payload.
pub(crate) fn header_of(payload: &[u8]) -> [u8; HEADER]
    requires { length payload.now < 2 ^ 32 }
    ensures { result ≡ header (length payload.now) (check_of payload.now) }
{
    let len = payload.len() as u32;
    header(len, add_bytes(start(len), payload))
}
