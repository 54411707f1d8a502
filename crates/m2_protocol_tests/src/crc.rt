//! Checksums that an independent program gives, which goes bit by bit.

use m2_crc::crc32c;

#[test]
fn known_checksums(rt: HostRuntime) {
    let ones = 0xFFFF_FFFF;
    let text = b"the quick brown fox jumps over the lazy d";
    let rows: [(u32, &[u8], u32); 9] = [
        (ones, b"123456789", 0x1CF9_6D7C),
        (ones, b"", 0xFFFF_FFFF),
        (ones, b"a", 0x3E2F_BCCF),
        (ones, &[0; 32], 0x756E_C955),
        (0, &[0; 28], 0),
        (ones, &text[..7], 0xFA2F_908E),
        (0x1234_5678, &text[..8], 0x657F_EB3B),
        (0, &text[..28], 0x9EBF_8F41),
        (ones, text, 0xCA29_E994),
    ];
    for (from, bytes, sum) in rows {
        assert_eq!(rt; crc32c(from, bytes), sum);
    }
}
