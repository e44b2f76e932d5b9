// The cases of RFC 4231 with a key of at most eight words and a text of whole words.

// A key, a text and the first words of the tag.
pub(crate) struct Case {
    pub(crate) what: &'static str,
    pub(crate) key: [u32; 8],
    pub(crate) text: &'static [u32],
    pub(crate) tag: &'static [u32],
}

pub(crate) const CASES: &[Case] = &[
    Case {
        what: "case 1",
        key: [
            0x0b0b0b0b, 0x0b0b0b0b, 0x0b0b0b0b, 0x0b0b0b0b, 0x0b0b0b0b, 0x00000000, 0x00000000,
            0x00000000,
        ],
        text: &[0x48692054, 0x68657265],
        tag: &[
            0xb0344c61, 0xd8db3853, 0x5ca8afce, 0xaf0bf12b, 0x881dc200, 0xc9833da7, 0x26e9376c,
            0x2e32cff7,
        ],
    },
    Case {
        what: "case 2",
        key: [
            0x4a656665, 0x00000000, 0x00000000, 0x00000000, 0x00000000, 0x00000000, 0x00000000,
            0x00000000,
        ],
        text: &[
            0x77686174, 0x20646f20, 0x79612077, 0x616e7420, 0x666f7220, 0x6e6f7468, 0x696e673f,
        ],
        tag: &[
            0x5bdcc146, 0xbf60754e, 0x6a042426, 0x089575c7, 0x5a003f08, 0x9d273983, 0x9dec58b9,
            0x64ec3843,
        ],
    },
    Case {
        what: "case 5, the first four words",
        key: [
            0x0c0c0c0c, 0x0c0c0c0c, 0x0c0c0c0c, 0x0c0c0c0c, 0x0c0c0c0c, 0x00000000, 0x00000000,
            0x00000000,
        ],
        text: &[0x54657374, 0x20576974, 0x68205472, 0x756e6361, 0x74696f6e],
        tag: &[0xa3b61674, 0x73100ee0, 0x6e0c796c, 0x2955552b],
    },
];
