//! The rows, by an independent implementation.

/// A record: each byte from a first to a last one so often; and the disk's SHA-256 once it is
/// stored.
#[derive(Clone, Copy)]
pub(crate) struct Row {
    pub(crate) text: &'static [(u8, u8, usize)],
    pub(crate) sha256: &'static str,
}

/// Records in the order in which they are stored.
pub(crate) fn rows() -> [Row; 14] {
    [
        Row {
            text: &[(97, 97, 4096), (98, 98, 4096), (99, 99, 100)],
            sha256: "05616c2eb9b763e6d9d612ea096f174cde490fb5a75cfb69fc6b7c23b480fda7",
        },
        Row {
            text: &[(97, 97, 4096), (98, 98, 4096), (99, 99, 100)],
            sha256: "4b8d8a574136881ea98e31fadc217116b4c024c5652567dec08622a2d5221a1b",
        },
        Row {
            text: &[(97, 98, 4096)],
            sha256: "33ec228fdde1fb6e543fe803dd3701b3c7fd4d3d67f855b39c2b9dac2cc1a7de",
        },
        Row {
            text: &[(97, 99, 4096), (100, 100, 1)],
            sha256: "d38d90adfaf7715ba0c98976b8eeb67d0c34df4ba1557b853d8b7c73a019a014",
        },
        Row {
            text: &[
                (97, 97, 4096),
                (120, 120, 4096),
                (99, 99, 4096),
                (100, 100, 1),
            ],
            sha256: "d6dc34ec76d20e1ae6727703992c40fbbbb0b9d71d7f6c1e37827f813107552d",
        },
        Row {
            text: &[
                (120, 120, 4096),
                (97, 97, 4096),
                (99, 99, 4096),
                (100, 100, 1),
            ],
            sha256: "92d7d2f0206b973e33a7f28045177b83db64da5efff9dbf67005d20c5d6c8df2",
        },
        Row {
            text: &[
                (120, 120, 4096),
                (97, 97, 4096),
                (99, 99, 4096),
                (100, 100, 2),
            ],
            sha256: "637249bf25d8f24f0f5d0562a46ea8fe808a5c64cfff9bda56675d57f4614cbe",
        },
        Row {
            text: &[(120, 120, 4096)],
            sha256: "5de6907ca638c3017f4c8acfd7784e1fcc8833e0b32a9d5f188b4edfe58ce81d",
        },
        Row {
            text: &[(120, 120, 4095)],
            sha256: "864945c7fa7dfbb5d173f213ff324f7a5b3c3f2a8c5e2568d777aa49a65e0c7d",
        },
        Row {
            text: &[(120, 120, 4097)],
            sha256: "c50cd27e0badcdcc403437543d6a717657aa8a89eeaf0582f559a900e23a4ea3",
        },
        Row {
            text: &[(1, 46, 4096)],
            sha256: "35654fec93bae443b248db939dace800570eecf5a75c03d2bab74ff0c69ffca0",
        },
        Row {
            text: &[(101, 146, 4096)],
            sha256: "e012eb16825971512209234d886852ac7da4c9c6f7e88cb2d1174f3e7a5a8cb6",
        },
        Row {
            text: &[(1, 2, 4096)],
            sha256: "53264dae127d23928c7e6e86266f829155b72341b15ed8cb20c6180d740749f4",
        },
        Row {
            text: &[(97, 97, 1)],
            sha256: "ecf472588e93f36e7396dcecc35c28760399949b53abb80d727687f08ea203c7",
        },
    ]
}
