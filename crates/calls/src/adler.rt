// The Adler-32 of RFC 1950: two sums modulo 65521.
// Two sums are carried, each below 65521: the loop says that once, as its invariant.
pub fn adler(bytes: &[u8]) -> u32 {
    let mut a = 1;
    let mut b = 0;
    for x in bytes {
        a = (a + u32::from(*x)) % 65521;
        b = (b + a) % 65521;
    }
    b * 65536 + a
}
