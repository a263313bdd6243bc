//! Changes of a disk's bytes, by an independent implementation.

/// What an opening finds: the number of a damaged table and the place, no session, the record on a
/// disk that is then as it was before it was changed, or the record elsewhere.
#[derive(Clone, Copy, PartialEq)]
pub(crate) enum Found {
    Damaged(u32, u64),
    NoSession,
    Mended,
    Newer,
}

/// Bytes from a place on.
pub(crate) type Change = (u64, &'static [u8]);

/// Changes of the disk, each with what an opening then finds, by an independent implementation.
pub(crate) fn rows() -> [(&'static [Change], Found); 41] {
    [
        (&[(4096, b"\xa5\x03")], Found::Damaged(1, 1)),
        (
            &[(2, b"\xff\xff\xff\xff"), (4096, b"\xa5\x03")],
            Found::Damaged(1, 1),
        ),
        (
            &[(0, b"\x00"), (4096, b"\xa5\x03")],
            Found::Damaged(1, 4096),
        ),
        (&[(2, b"\x00\x0b\xe0\x01")], Found::Damaged(0, 2)),
        (&[(2, b"\xff\xff\xff\xff")], Found::Damaged(0, 2)),
        (
            &[(2, b"\x00\x0b\xe0\x01"), (6, b"\x00\x00")],
            Found::Damaged(0, 2),
        ),
        (&[(6, b"\x00\x00")], Found::Damaged(0, 6)),
        (&[(6, b"\x00\x01")], Found::Damaged(0, 6)),
        (&[(6, b"\x01\x80")], Found::Damaged(0, 6)),
        (&[(10, b"\xff\xff")], Found::Damaged(0, 10)),
        (&[(8, b"\x00\x02")], Found::Damaged(0, 8)),
        (&[(10, b"\x00\x02")], Found::Damaged(0, 10)),
        (&[(6, b"\x00\x01"), (10, b"\x00\x04")], Found::Damaged(0, 6)),
        (&[(2, b"\x00\x00\x31\xda")], Found::Damaged(0, 12)),
        (&[(2, b"\x00\x00\x11\xda")], Found::Damaged(0, 11)),
        (&[(2, b"\x00\x00\x00\x00")], Found::Damaged(0, 7)),
        (
            &[(2, b"\x00\x00\x00\x00"), (6, b"\x00\x00\x00\x00\x00\x00")],
            Found::Damaged(0, 4096),
        ),
        (&[(12, b"\x01")], Found::Damaged(0, 12)),
        (&[(4095, b"\x80")], Found::Damaged(0, 4095)),
        (&[(8, b"\x00\x01"), (12, b"\x01")], Found::Damaged(0, 8)),
        (&[(12, b"\x01"), (8192, b"\x09")], Found::Damaged(0, 12)),
        (&[(8192, b"\x09")], Found::Damaged(0, 4096)),
        (&[(8193, b"\x03")], Found::Damaged(0, 4097)),
        (&[(8243, b"\xff\xff\xff\xff")], Found::Damaged(0, 4147)),
        (&[(6, b"\x00\x04\x00\x02\x00\x06")], Found::Damaged(0, 4096)),
        (&[(8194, b"\x04")], Found::Damaged(0, 4098)),
        (&[(9392, b"\x04")], Found::Damaged(0, 5296)),
        (&[(2, b"\x00\x00\x22\x9c")], Found::Damaged(0, 12829)),
        (&[(2, b"\x00\x00\x22\x9e")], Found::Damaged(0, 12957)),
        (
            &[(8192, b"\x09"), (25116, b"\x01")],
            Found::Damaged(0, 4096),
        ),
        (&[(25245, b"\x01")], Found::Damaged(0, 12957)),
        (&[(28671, b"\x01")], Found::Damaged(0, 16383)),
        (&[(4096, b"\xa5\x01")], Found::Damaged(1, 4096)),
        (&[(4096, b"\xa5\x01\x00\x0b\xe0\x01")], Found::Damaged(1, 2)),
        (
            &[(4096, b"\xa5\x01\x00\x00\x22\x9d\x00\x02\x00\x04\x00\x06")],
            Found::Newer,
        ),
        (
            &[(
                4096,
                b"\xa5\x02\xff\xff\xff\xff\xff\xff\xff\xff\xff\xff\xff\xff\xff\xff\xff\xff\xff\xff\xff\xff",
            )],
            Found::Mended,
        ),
        (&[(4096, b"\xa5\x04\xff")], Found::Mended),
        (&[(4096, b"\xa5\x00\xff")], Found::Mended),
        (&[(4096, b"\x05\x01\x00\x00\x00\x01")], Found::Mended),
        (&[(1568775, b"\x01")], Found::Mended),
        (&[(0, b"\xa4")], Found::NoSession),
    ]
}
