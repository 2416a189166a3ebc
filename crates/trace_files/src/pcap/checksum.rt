//! The Internet checksum.
//!
//! RFC 1071, section 1.

ghost use Rattle.std.specs.Prelude.{◌≡◌, ◌≤◌, ◌*◌, ◌^◌, length};
ghost use Rattle.trace_files.specs.Pcap.Checksum.{word_sum, checksum_of};

/// The sum of the 16-bit words of the bytes. A zero follows a last odd byte.
pub fn word_sum(bytes: &[u8]) -> u64
    requires { length bytes.now ≤ 2 ^ 32 }
    ensures sum { result ≡ word_sum bytes.now }
    ensures small { result ≤ 65535 * length bytes.now }
{
    let mut total = 0;
    let mut rest = bytes;
    while let [high, low, after @ ..] = rest {
        total += u64::from(*high) * 256 + u64::from(*low);
        rest = after;
    }
    match rest {
        [] => total,
        [last] => total + u64::from(*last) * 256,
        _ => unreachable!(),
    }
}

/// The checksum of words with this sum.
#[tactic(auto, unfolding(crate::specs::Pcap::Checksum::checksum_of))]
pub fn checksum_of(sum: u64) -> u16
    ensures { result ≡ checksum_of sum }
{
    if sum == 0 {
        return 65535;
    }
    (65534 - (sum - 1) % 65535) as u16
}
